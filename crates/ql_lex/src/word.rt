//! The keywords and signs of the query language.
ghost use Rattle.std.specs.Prelude.{◌≡◌, List, ◌∷◌, find};
ghost use Rattle.std.specs.Option.{option_copied};
ghost use Rattle.ql_lex.specs.Words.{word_text, keywords, keyword_of, is_left_out};

/// A keyword or a sign.
#[derive(Clone, Copy, PartialEq, Eq, Debug, Drop)]
pub enum Word {
    Select,
    From,
    As,
    Where,
    Order,
    By,
    Asc,
    Desc,
    Or,
    And,
    Not,
    Any,
    In,
    Like,
    Is,
    Null,
    InFolder,
    InTree,
    True,
    False,
    Timestamp,
    Star,
    Dot,
    Comma,
    Open,
    Close,
    Equal,
    NotEqual,
    Less,
    Greater,
    LessEqual,
    GreaterEqual,
}

const KEYWORDS: [Word; 21] = [
    Word::Select,
    Word::From,
    Word::As,
    Word::Where,
    Word::Order,
    Word::By,
    Word::Asc,
    Word::Desc,
    Word::Or,
    Word::And,
    Word::Not,
    Word::Any,
    Word::In,
    Word::Like,
    Word::Is,
    Word::Null,
    Word::InFolder,
    Word::InTree,
    Word::True,
    Word::False,
    Word::Timestamp,
];

impl Word {
    /// How it is written, a keyword in capitals.
    pub fn text(self) -> &'static str
        ensures { result.now ≡ word_text self }
    {
        match self {
            Word::Select => "SELECT",
            Word::From => "FROM",
            Word::As => "AS",
            Word::Where => "WHERE",
            Word::Order => "ORDER",
            Word::By => "BY",
            Word::Asc => "ASC",
            Word::Desc => "DESC",
            Word::Or => "OR",
            Word::And => "AND",
            Word::Not => "NOT",
            Word::Any => "ANY",
            Word::In => "IN",
            Word::Like => "LIKE",
            Word::Is => "IS",
            Word::Null => "NULL",
            Word::InFolder => "IN_FOLDER",
            Word::InTree => "IN_TREE",
            Word::True => "TRUE",
            Word::False => "FALSE",
            Word::Timestamp => "TIMESTAMP",
            Word::Star => "*",
            Word::Dot => ".",
            Word::Comma => ",",
            Word::Open => "(",
            Word::Close => ")",
            Word::Equal => "=",
            Word::NotEqual => "<>",
            Word::Less => "<",
            Word::Greater => ">",
            Word::LessEqual => "<=",
            Word::GreaterEqual => ">=",
        }
    }
}

/// Whether the bytes are this word in any case of their letters.
fn is_written(bytes: &[u8], word: &str) -> bool
    ensures { result ≡ Rattle.ql_lex.specs.Words.is_written bytes.now word.now }
{
    bytes.eq_ignore_ascii_case(word.as_bytes())
}

fn written_in<'a>(words: &'a [Word], bytes: &[u8]) -> Option<&'a Word>
    ensures { option_copied result ≡ find (λ word. Rattle.ql_lex.specs.Words.is_written bytes.now
        (word_text word)) words.now }
{
    words.iter().find(|word| is_written(bytes, word.text()))
}

fn first_written(words: &[Word], bytes: &[u8]) -> Option<Word>
    ensures { result ≡ find (λ word. Rattle.ql_lex.specs.Words.is_written bytes.now (word_text word)) words.now }
{
    match written_in(words, bytes) {
        Some(word) => Some(*word),
        None => None,
    }
}

/// The keyword that these bytes are, in any case of their letters.
#[tactic(auto, unfolding(crate::specs::Words::keyword_of))]
pub fn keyword_of(bytes: &[u8]) -> Option<Word>
    ensures { result ≡ Rattle.ql_lex.specs.Words.keyword_of bytes.now }
{
    first_written(&KEYWORDS, bytes)
}

/// Whether the bytes are `CONTAINS`, `SCORE` or `JOIN` in any case of their letters, which the language leaves out.
#[tactic(auto, unfolding(crate::specs::Words::is_left_out))]
pub fn is_left_out(name: &[u8]) -> bool
    ensures { result ≡ Rattle.ql_lex.specs.Words.is_left_out name.now }
{
    is_written(name, "CONTAINS") || is_written(name, "SCORE") || is_written(name, "JOIN")
}
