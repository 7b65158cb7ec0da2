//! Lists of texts without repeats.
ghost use Rattle.std.specs.Prelude.{◌≡◌, [], ◌∷◌, ◌++◌, IfOk, bytes_eq};
ghost use Rattle.std.specs.List.{list_any};
ghost use Rattle.wr_rules.specs.Rules.{distinct};
ghost use Rattle.wr_rules.specs.Firsts.{with_first};

use cm_base::copies::Copies;
use cm_base::items::Items;
use cm_base::text::{Text, Texts};
use cm_map::set::Set;
use std::alloc::{AllocError, Global};
use std::marker::Model;

// Texts in the order in which they came, each once.
#[derive(Drop)]
struct Firsts {
    list: Texts,
    all: Set<Text>,
}

impl Model for Firsts {
    ghost use Rattle.std.specs.Prelude.{ℕ, List};
    ghost use Rattle.wr_rules.specs.Firsts.{HasAll};

    ghost Value = { List (List ℕ) };

    ghost view = { λ s. s.list };

    ghost invariant = { λ s. HasAll s.list s.all };
}

impl Firsts {
    fn empty(alloc: Global) -> Firsts
        ensures { result ≡ [] }
    {
        Firsts {
            list: Items::new(alloc),
            all: Set::empty(alloc),
        }
    }

    fn has(&self, text: &Text) -> bool
        ensures { result ≡ list_any (bytes_eq text.now) self.now }
    {
        self.all.has(text)
    }

    fn with_new(self, alloc: Global, text: &Text) -> Result<Firsts, AllocError>
        ensures { IfOk result (λ f. f ≡ self ++ text.now ∷ []) }
    {
        let all = self.all.with(alloc, text.copied(alloc)?)?;
        let mut list = self.list;
        list.push(text.copied(alloc)?)?;
        Ok(Firsts { list, all })
    }

    fn with(self, alloc: Global, text: &Text) -> Result<Firsts, AllocError>
        ensures { IfOk result (λ f. f ≡ with_first self text.now) }
    {
        if self.has(text) {
            return Ok(self);
        }
        self.with_new(alloc, text)
    }

    fn into_list(self) -> Texts
        ensures { result ≡ self }
    {
        self.list
    }
}

fn firsts_of(alloc: Global, texts: &[Text]) -> Result<Firsts, AllocError>
    ensures { IfOk result (λ f. f ≡ distinct texts.now) }
{
    let mut firsts = Firsts::empty(alloc);
    for text in texts {
        firsts = firsts.with(alloc, text)?;
    }
    Ok(firsts)
}

/// Each text where it stands first.
pub fn distinct(alloc: Global, texts: &[Text]) -> Result<Texts, AllocError>
    ensures { IfOk result (λ ts. ts ≡ distinct texts.now) }
{
    let firsts = firsts_of(alloc, texts)?;
    Ok(firsts.into_list())
}
