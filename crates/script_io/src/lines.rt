// Lines, one after the other: each is counted, run and answered.
ghost use Rattle.std.specs.Prelude.{◌≤◌, length, IfOk};

use crate::Telling;
use crate::input::Input;
use crate::output::Output;
use crate::results::Results;
use script::{Line, Why};
use script_results::Head;
use script_run::Came;
use session::{ClientSession, ClientSessionConfig, ClientSessionError, Outcome};
use std::io;

// Lines passed, and whether the one that has begun is passed over as too long; how much of `out`, which is lent to the calls, a call gets; where a
// message's body goes; what is told, and where.
#[derive(Drop)]
pub struct Run<'a> {
    session: ClientSession,
    line: u64,
    skip: bool,
    space: u32,
    out: &'a mut [u8],
    body: &'a mut [u8],
    telling: Telling,
    output: Output<'a>,
}

// How many bytes the message of a line has; 0 of a line that brings none.
fn message_length(s: &[u8]) -> usize {
    match script::read_line(s) {
        Ok(Line::Msg(_, _, _, _, at)) => at.len / 2,
        _ => 0,
    }
}

impl Telling {
    // The message of the line s, which stands at the start of body, where values are told.
    fn message<'b>(self, body: &'b [u8], s: &[u8]) -> Option<&'b [u8]> {
        match self {
            Telling::Results => None,
            Telling::Values => Some(octets::part(body, 0, message_length(s))),
        }
    }
}

impl<'a> Run<'a> {
    // A default session, and all of `out` lent.
    pub(crate) fn new(
        telling: Telling,
        output: Output<'a>,
        body: &'a mut [u8],
        out: &'a mut [u8],
    ) -> Run<'a> {
        Run {
            session: ClientSession::new(ClientSessionConfig::new()).session,
            line: 0,
            skip: false,
            space: u32::MAX,
            out,
            body,
            telling,
            output,
        }
    }

    // Results of the lines before go out first, so that the messages stand between them where both streams go to one place.
    fn unread(&mut self, why: Why) -> io::Result<()> {
        let flushed = self.output.flush();
        self.output.unread(self.line, why);
        flushed
    }

    // The results of the line s.
    fn told(&mut self, s: &[u8], outcome: Result<Outcome, ClientSessionError>) -> io::Result<()> {
        let head = Head {
            line: self.line,
            stage: self.session.progress.state,
        };
        let telling = self.telling;
        // Lent as they came: the check has no rule for a `&` out of the one while the other is lent.
        let out = &mut *self.out;
        let body = &mut *self.body;
        let told = Results {
            head,
            out,
            message: telling.message(body, s),
        };
        told.outcome(&mut self.output, outcome)?;
        match telling {
            Telling::Results => Ok(()),
            Telling::Values => self.output.open_line(head, &self.session),
        }
    }

    // One line, without its newline. No line's results are longer than all of `out`.
    fn one_line(&mut self, s: &[u8]) -> io::Result<()> {
        let lent = self.out.len().min(self.space as usize);
        let ran = script_run::run_line(self.session, s, self.body, &mut self.out[..lent]);
        self.session = ran.session;
        match ran.came {
            Err(why) => self.unread(why),
            Ok(Came::Passed) => Ok(()),
            Ok(Came::Space(n)) => {
                self.space = n;
                Ok(())
            }
            Ok(Came::Answer(outcome)) => self.told(s, outcome),
        }
    }

    // A line that has its end. It isn't run if its start was too long.
    fn ended(&mut self, s: &[u8]) -> io::Result<()> {
        self.line = self.line.wrapping_add(1);
        if self.skip {
            self.skip = false;
            return Ok(());
        }
        self.one_line(s)
    }

    // The lines of s that have their end: where what is left begins. No newline stands before `seek`.
    fn whole_lines(&mut self, s: &[u8], seek: usize) -> io::Result<usize>
        ensures { IfOk result (λ from. from ≤ length s.now) }
    {
        let mut from = 0;
        let mut end = script::find(s, seek, b'\n');
        while end < s.len() {
            self.ended(&s[from..end])?;
            from = end + 1;
            end = script::find(s, from, b'\n');
        }
        Ok(from)
    }

    // The line that fills the buffer is passed over, to its end.
    fn too_long(&mut self) {
        if !self.skip {
            let line = self.line.wrapping_add(1);
            self.output.unread(line, Why::LineLength);
        }
        self.skip = true;
    }

    // The end of the input: `last` is a line without a newline, or empty.
    fn finish(&mut self, last: &[u8]) -> io::Result<()> {
        if !last.is_empty() {
            self.ended(last)?;
        }
        self.output.flush()
    }

    // One read; a line that it cuts off by failing isn't run.
    fn read(&self, input: &mut Input<'_>) -> io::Result<usize> {
        let got = input.read();
        if got.is_err() {
            self.output
                .complain(b"card: standard input can't be read\n");
        }
        got
    }

    // One read, and the lines that it ends: whether more may come.
    pub(crate) fn turn(&mut self, input: &mut Input<'_>) -> io::Result<bool> {
        if input.is_full() {
            input.pass(input.len());
            self.too_long();
            return Ok(true);
        }
        let seek = input.len();
        if self.read(input)? == 0 {
            self.finish(input.at_hand())?;
            return Ok(false);
        }
        let from = self.whole_lines(input.at_hand(), seek)?;
        input.pass(from);
        self.output.flush()?;
        Ok(true)
    }
}
