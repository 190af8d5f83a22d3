//! A whole script: the turns of its lines.
ghost use Rattle.std.specs.Prelude.{◌≡◌, IfErr, IfOk, IfSome, OnOk};
ghost use Rattle.papaya_run_lines.specs.Lines.{IsReadFailure, lines_of};
ghost use Rattle.papaya_run_lines.specs.Script.{Adds, IsScript, line_of};
ghost use Rattle.papaya_run_lines.specs.LineOutput.{begins_call};
ghost use Rattle.papaya_run_shell.specs.Failure.{without_memory};

use crate::closures::Answering;
use crate::lines::next_line;
use crate::turns::turn_of;
use papaya_call::call::Call;
use papaya_core_timeline::trace::Turn;
use papaya_run_shell::failure::Failure;
use std::alloc::Global;
use std::io::BufRead;

/// The part of a line's turn that the printed text depends on.
#[derive(Clone, Copy, PartialEq)]
pub enum LinePart {
    /// It begins an update, and the new value of its reply is printed.
    Update,
    /// It begins an iteration, and the pairs that it returned are printed.
    Walk,
    /// It begins another call.
    Call,
    Step,
    /// It prints a text if its call is still running.
    Finish,
}

impl LinePart {
    /// Returns whether it begins a call.
    pub(crate) fn begins(self) -> bool
        ensures { result ≡ begins_call self }
    {
        match self {
            LinePart::Update | LinePart::Walk | LinePart::Call => true,
            LinePart::Step | LinePart::Finish => false,
        }
    }
}

/// The line that a turn was read from.
#[derive(Clone, Copy)]
pub struct Line {
    /// Counted from 1, empty lines among them.
    pub number: u64,
    pub caller: usize,
    pub part: LinePart,
}

/// Returns the line of this number, which has this turn.
fn line_of(number: u64, turn: &Turn<u64, u64, Answering>) -> Line
    ensures { result ≡ line_of number turn.now }
{
    let (caller, part) = match turn {
        Turn::Begin(caller, Call::Compute(..)) => (*caller, LinePart::Update),
        Turn::Begin(caller, Call::Walk) => (*caller, LinePart::Walk),
        Turn::Begin(caller, _) => (*caller, LinePart::Call),
        Turn::Step(caller, _) => (*caller, LinePart::Step),
        Turn::Finish(caller, _) => (*caller, LinePart::Finish),
    };
    Line {
        number,
        caller,
        part,
    }
}

/// A whole script, up to its first bad line.
#[derive(Drop)]
pub struct Script {
    pub turns: Vec<Turn<u64, u64, Answering>>,
    /// The line of each turn, in order.
    pub lines: Vec<Line>,
    /// The number of the first bad line.
    pub bad_line: Option<u64>,
}

impl Script {
    /// Reads the whole input, also behind a bad line, since a fault there counts too.
    pub fn read<R: BufRead>(alloc: Global, input: &mut R) -> Result<Script, Failure>
        ensures read { IfOk result (λ script. IfSome (R.Read.remaining input.old)
            (λ text. IsScript (lines_of text) 1 script.turns.items script.lines.items
            script.bad_line)) }
        ensures failed { IfErr result IsReadFailure }
    {
        let mut script = Script {
            turns: Vec::new(alloc),
            lines: Vec::new(alloc),
            bad_line: None,
        };
        let mut line = Vec::new(alloc);
        for number in 1..u64::MAX {
            if !next_line(input, &mut line)? {
                return Ok(script);
            }
            script.add(number, &line)?;
        }
        Err(Failure::Input)
    }

    /// Adds a line, or notes that it is bad. Empty lines, and lines behind a bad one, are skipped.
    fn add(&mut self, number: u64, line: &[u8]) -> Result<(), Failure>
        ensures added { OnOk result (Adds self.old number line.now self.new) }
        ensures failed { IfErr result (λ failure. failure ≡ without_memory) }
    {
        if self.bad_line.is_some() || line.is_empty() {
            return Ok(());
        }
        let Some(turn) = turn_of(line) else {
            self.bad_line = Some(number);
            return Ok(());
        };
        let line = line_of(number, &turn);
        self.turns.push(turn)?;
        self.lines.push(line)?;
        Ok(())
    }
}
