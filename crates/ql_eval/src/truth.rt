//! Truth of three values (CMIS 1.1, section 2.1.14.2.3): a test over what is unset is unknown.
ghost use Rattle.std.specs.Prelude.{◌≡◌};
ghost use Rattle.ql_eval.specs.Truths.{both, either, holds, opposite, opposite_if, truth_of};

/// True, false or unknown.
#[derive(Clone, Copy, Debug, PartialEq, Eq)]
pub enum Truth {
    Holds,
    Fails,
    Unknown,
}

impl Truth {
    pub(crate) fn of(flag: bool) -> Truth
        ensures { result ≡ truth_of flag }
    {
        if flag { Truth::Holds } else { Truth::Fails }
    }

    pub(crate) fn opposite(self) -> Truth
        ensures { result ≡ opposite self }
    {
        match self {
            Truth::Holds => Truth::Fails,
            Truth::Fails => Truth::Holds,
            Truth::Unknown => Truth::Unknown,
        }
    }

    pub(crate) fn opposite_if(self, negated: bool) -> Truth
        ensures { result ≡ opposite_if negated self }
    {
        if negated { self.opposite() } else { self }
    }

    pub(crate) fn and(self, other: Truth) -> Truth
        ensures { result ≡ both self other }
    {
        match self {
            Truth::Fails => Truth::Fails,
            Truth::Holds => other,
            Truth::Unknown => match other {
                Truth::Fails => Truth::Fails,
                _ => Truth::Unknown,
            },
        }
    }

    pub(crate) fn or(self, other: Truth) -> Truth
        ensures { result ≡ either self other }
    {
        match self {
            Truth::Holds => Truth::Holds,
            Truth::Fails => other,
            Truth::Unknown => match other {
                Truth::Holds => Truth::Holds,
                _ => Truth::Unknown,
            },
        }
    }

    pub(crate) fn holds(self) -> bool
        ensures { result ≡ holds self }
    {
        match self {
            Truth::Holds => true,
            _ => false,
        }
    }
}
