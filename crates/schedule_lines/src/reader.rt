//! A script, read line by line from a source.
ghost use Rattle.std.specs.Prelude.{◌≡◌, ℕ, Bool, false, List, []};
ghost use Rattle.schedule_lines.specs.Reading.{Fills, ReadsOn, StandsBehind, Takes, unread};
ghost use Rattle.schedule_lines.specs.declared.step.Step.{Step};

use crate::ahead::{Ahead, ReadStop};
use crate::line::{LineStop, read_line};
use crate::step::Step;
use outside::Source;
use std::alloc::Global;
use std::marker::Model;

/// Why a script gives no step.
#[derive(Clone, Copy, Debug, PartialEq, Eq)]
pub enum ScriptStop {
    /// The line with this number, counted from 1, is no line of a script, or there are too many.
    NotValid(u64),
    /// The source failed.
    ReadFault,
    /// There was no memory.
    Memory,
}

/// What reads a script. It keeps the bytes that stand behind the lines that were read.
#[derive(Drop)]
pub struct ScriptReader {
    ahead: Ahead,
    number: u64,
    over: bool,
}

impl Model for ScriptReader {
    ghost use Rattle.schedule_lines.specs.Reading.{Reading};

    ghost Value = { Reading };

    ghost view = { λ r. record { number = r.number; ahead = r.ahead; over = r.over } };
}

impl ScriptReader {
    /// A reader that has read nothing.
    pub fn new(alloc: Global) -> ScriptReader
        ensures reading { result ≡ unread }
        ensures stands { (ended : Bool) → StandsBehind [] [] result ended }
    {
        ScriptReader {
            ahead: Ahead::new(alloc),
            number: 1,
            over: false,
        }
    }

    fn is_over(&self) -> bool
        ensures { result ≡ self.now.over }
    {
        self.over
    }

    // Reads until a line stands whole at the front, or is too long already, or the source has ended.
    fn fill<S: Source>(&mut self, alloc: Global, source: &mut S) -> Result<(), ScriptStop>
        requires { self.old.over ≡ false }
        ensures { Fills self.old self.new (S.told source.old) (S.told source.new) result }
    {
        'reads: loop {
            if self.ahead.has_line() {
                return Ok(());
            }
            match self.ahead.read_more(alloc, source) {
                Ok(true) => {}
                Ok(false) => {
                    self.over = true;
                    return Ok(());
                }
                Err(ReadStop::Fault) => return Err(ScriptStop::ReadFault),
                Err(ReadStop::Memory) => return Err(ScriptStop::Memory),
            }
        }
    }

    // Takes the line at the front.
    fn take(&mut self, alloc: Global) -> Result<Option<Step>, ScriptStop>
        ensures { Takes self.old self.new result }
    {
        if self.ahead.is_empty() {
            return Ok(None);
        }
        match read_line(alloc, self.number, self.ahead.line()) {
            Ok(step) => {
                self.ahead.drop_line();
                self.number += 1;
                Ok(Some(step))
            }
            Err(LineStop::NotValid) => Err(ScriptStop::NotValid(self.number)),
            Err(LineStop::Memory) => Err(ScriptStop::Memory),
        }
    }

    /// The step of the next line, or none where the script has ended. It reads on only where no line stands whole in what was read.
    pub fn next<S: Source>(
        &mut self,
        alloc: Global,
        source: &mut S,
    ) -> Result<Option<Step>, ScriptStop>
        ensures { (text : List ℕ) (steps : List Step) → StandsBehind text steps self.old (S.told source.old).ended
            → ReadsOn text steps self.old self.new (S.told source.old) (S.told source.new) result }
    {
        if self.is_over() {
            return self.take(alloc);
        }
        match self.fill(alloc, source) {
            Ok(()) => self.take(alloc),
            Err(stop) => Err(stop),
        }
    }
}
