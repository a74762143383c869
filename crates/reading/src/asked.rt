// What the words of a program ask for, its own options aside.
ghost use Rattle.reading.specs.Asked.{Comes, IsWord, Behind, nothing as asked_nothing, noted as asked_noted, named as asked_named};
ghost use Rattle.std.specs.Prelude.{◌≡◌, ◌↔◌, IsTrue};

use crate::arguments;
use crate::arguments::{Kind, Word};
use std::env::Env;

// `unknown` is the place of the first option that is not known, `rest` that of `--`, and `first`, `second` and `third` are
// those of words that are no options: the first, the second and the last of the further ones.
#[derive(Clone, Copy)]
pub struct Asked {
    pub help: bool,
    pub version: bool,
    pub unknown: Option<usize>,
    pub rest: Option<usize>,
    pub first: Option<usize>,
    pub second: Option<usize>,
    pub third: Option<usize>,
}

// What all the words ask for.
pub fn all(env: &impl Env) -> Asked
    ensures { Comes result }
{
    let mut asked = Asked::nothing();
    for i in 1..arguments::count(env) {
        let kind = kind_of(Word::or_empty(env, i).bytes(), i, asked.rest);
        asked = asked.noted(kind, i);
    }
    asked
}

impl Asked {
    // What no word at all asks for.
    pub fn nothing() -> Asked
        ensures { result ≡ asked_nothing }
    {
        Asked {
            help: false,
            version: false,
            unknown: None,
            rest: None,
            first: None,
            second: None,
            third: None,
        }
    }

    // What is asked for once word i is known too.
    pub fn noted(self, kind: Kind, i: usize) -> Asked
        ensures { result ≡ asked_noted self kind i }
    {
        match kind {
            Kind::Help => Asked { help: true, ..self },
            Kind::Version => Asked {
                version: true,
                ..self
            },
            Kind::Own => self,
            Kind::Rest => Asked {
                rest: Some(i),
                ..self
            },
            Kind::Unknown => Asked {
                unknown: self.unknown.or(Some(i)),
                ..self
            },
            Kind::Input | Kind::File => self.named(i),
        }
    }

    // Word i is no option.
    fn named(self, i: usize) -> Asked
        ensures { result ≡ asked_named self i }
    {
        match (self.first, self.second) {
            (None, _) => Asked {
                first: Some(i),
                ..self
            },
            (_, None) => Asked {
                second: Some(i),
                ..self
            },
            _ => Asked {
                third: Some(i),
                ..self
            },
        }
    }
}

// What the word of argument i is, where `rest` is the place of `--`.
pub fn kind_of(word: &[u8], i: usize, rest: Option<usize>) -> Kind
    ensures { IsWord word.now i rest result }
{
    if is_behind(i, rest) {
        return arguments::operand_of(word);
    }
    arguments::kind_of(word, b"--help")
}

// Whether place i is behind that of `--`.
pub fn is_behind(i: usize, rest: Option<usize>) -> bool
    ensures { IsTrue result ↔ Behind i rest }
{
    rest.is_some_and(|place| place < i)
}
