//! The first words of commands, and where each of them may stand.

ghost use Rattle.std.specs.Prelude.{◌≡◌, find};
ghost use Rattle.std.specs.Str.{bytes_eq};
ghost use Rattle.paris_text.specs.Verbs.{allows, verb_in, verb_text, verb_word};

/// The first word of a command, by what it stands for.
#[derive(Clone, Copy, PartialEq, Eq, Debug)]
pub enum Verb {
    Set,
    Field,
    Input,
    Insert,
    Delete,
    Replace,
    Take,
    Bring,
    Release,
    Show,
    List,
    Faults,
    Settle,
    Paris,
}

/// Where a line stands.
#[derive(Clone, Copy, PartialEq, Eq, Debug)]
pub struct Setting {
    /// Whether the book that it is for is one that sessions share.
    pub is_shared: bool,
    /// Whether it is the first command of its script.
    pub is_first: bool,
}

impl Setting {
    /// Whether a command with this first word may stand there: of a book that sessions share no line settles all rows, and the
    /// profile is chosen by the first command alone.
    fn allows(self, verb: Verb) -> bool
        ensures { result ≡ allows self verb }
    {
        match verb {
            Verb::Settle => !self.is_shared,
            Verb::Paris => self.is_first,
            _ => true,
        }
    }
}

/// All verbs.
const VERBS: [Verb; 14] = [
    Verb::Set,
    Verb::Field,
    Verb::Input,
    Verb::Insert,
    Verb::Delete,
    Verb::Replace,
    Verb::Take,
    Verb::Bring,
    Verb::Release,
    Verb::Show,
    Verb::List,
    Verb::Faults,
    Verb::Settle,
    Verb::Paris,
];

impl Verb {
    /// The word itself.
    #[tactic(auto, unfolding(crate::specs::Verbs::verb_text))]
    pub fn text(self) -> &'static [u8]
        ensures { result.now ≡ verb_text self }
    {
        match self {
            Verb::Set => b"set",
            Verb::Field => b"field",
            Verb::Input => b"input",
            Verb::Insert => b"insert",
            Verb::Delete => b"delete",
            Verb::Replace => b"replace",
            Verb::Take => b"take",
            Verb::Bring => b"bring",
            Verb::Release => b"release",
            Verb::Show => b"show",
            Verb::List => b"list",
            Verb::Faults => b"faults",
            Verb::Settle => b"settle",
            Verb::Paris => b"paris",
        }
    }

    /// The verb that a word is, if it is one.
    #[tactic(auto, unfolding(crate::specs::Verbs::verb_word))]
    pub fn of_word(word: &[u8]) -> Option<Verb>
        ensures { result ≡ verb_word word.now }
    {
        first_spelled(&VERBS, word)
    }

    /// The verb that a word is, if it is one with which a command may begin there.
    #[tactic(auto, unfolding(crate::specs::Verbs::verb_in))]
    pub fn of_word_in(setting: Setting, word: &[u8]) -> Option<Verb>
        ensures { result ≡ verb_in setting word.now }
    {
        let verb = Verb::of_word(word)?;
        if setting.allows(verb) {
            Some(verb)
        } else {
            None
        }
    }
}

/// The first of some verbs that a word is.
fn first_spelled(verbs: &[Verb], word: &[u8]) -> Option<Verb>
    ensures { result ≡ find (λ v. bytes_eq (verb_text v) word.now) verbs.now }
{
    verbs.iter().copied().find(|verb| verb.text() == word)
}
