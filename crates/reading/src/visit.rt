// The recordings that the arguments of a program name, one after another.
ghost use Rattle.std.specs.Prelude.{◌≡◌, IfOk, IfErr};

use crate::arguments::{Kind, Word};
use crate::{Failure, Mode, Program, Recording, Source, arguments, asked};
use std::env::Env;
use std::fs::{File, Files};

// What a program does with its arguments and with the recordings that they name.
pub trait Visit {
    // The word of argument i, and what it is to the program, where `rest` is the place of `--`: as a rule to one that has no
    // option of its own, and that says so where there is no word that fits.
    fn argument(
        &mut self,
        program: &Program,
        env: &impl Env,
        i: usize,
        rest: Option<usize>,
    ) -> Result<(Word, Kind), Failure>
        ensures { IfErr result (λ e. e ≡ Failure.Unread) }
    {
        let word = program.word(env, i)?;
        let kind = asked::kind_of(word.bytes(), i, rest);
        Ok((word, kind))
    }

    // Reads a recording.
    fn visit(&mut self, recording: &mut Recording) -> Result<(), Failure>
        ensures { IfOk result (λ u. u ≡ tt) };
}

impl Program {
    // Goes through the recordings to the last one, if the output can be written. The frames looked for are those of the mode.
    pub fn each(
        &self,
        rt: &(impl Env + Files<File = File>),
        rest: Option<usize>,
        mode: Mode,
        visitor: &mut impl Visit,
    ) -> Result<(), Failure>
        ensures { IfOk result (λ u. u ≡ tt) }
    {
        let mut all = Ok(());
        for i in 1..arguments::count(rt) {
            match self.visit(rt, i, rest, mode, visitor) {
                Ok(()) => {}
                Err(Failure::Unwritten) => return Err(Failure::Unwritten),
                Err(failure) => all = Err(failure),
            }
        }
        all
    }

    // Visits what argument i names, if it names a recording.
    fn visit(
        &self,
        rt: &(impl Env + Files<File = File>),
        i: usize,
        rest: Option<usize>,
        mode: Mode,
        visitor: &mut impl Visit,
    ) -> Result<(), Failure> {
        let (word, kind) = visitor.argument(self, rt, i, rest)?;
        if !matches!(kind, Kind::Input | Kind::File) {
            return Ok(());
        }
        let (source, name) = self.source(rt, word.bytes())?;
        self.visit_open(source, name, mode, visitor)
    }

    // Visits an open recording. In a function of its own its areas are cleared once, and only where there is one.
    fn visit_open(
        &self,
        source: Source,
        name: &[u8],
        mode: Mode,
        visitor: &mut impl Visit,
    ) -> Result<(), Failure> {
        let mut recording = Recording::new(source, name, self.terminal(), mode);
        visitor.visit(&mut recording)
    }
}
