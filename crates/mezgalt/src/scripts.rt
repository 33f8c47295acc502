// A script: one command a line; what stands behind a `#` is a comment.
use crate::any_lines::AnyLine;
use crate::stops::Stop;
use crate::tables_used::Tables;
use crate::words::BadLine;
use crate::{lines_used, messages_shown, slots_used, words};
use std::alloc::Global;

const HELP: &str = "\
help: one command a line; what stands behind a # is a comment; - stands for no octets
  read HEX            tells what a line message is, its label included, or why it is refused
  line cell OCTETS    opens a line of cells in an area of so many octets
  line packed OCTETS  opens a packed line
  put HEX             puts a message on the line
  take                takes the oldest message from the line
  places              tells how many places the line has left
  slots code=N ticks=N records=N store=N   opens slots, to which the commands below belong
  piece mark=N,N,.. first=yes|no remaining=N data=HEX   gives a piece
  tick [N]            one tick, or so many
  copy SLOT [OCTETS]  copies the unit of a slot, into a buffer of so many octets
  release SLOT        frees a slot
  account             what was opened, handed up, broken, lapsed, and is open
  prefix kind=N tt=N np=N nai=N digits=D on=title|subsystem to=CODE[/N] [backup=CODE[/N]]   adds a rule for titles
  plan kind=N tt=N np=N nai=N   translates by the bench plan, until the next prefix
  code N up|down|sccp-down      what a code is
  subsystem CODE/N up|failed|unequipped   what a subsystem is
  map HEX             states of codes, two bits each, until the next code or subsystem
  translate HEX own=CODE   translates an address at the station of a code
  help                lists the commands";

// What the program keeps from command to command.
#[derive(Drop)]
pub struct Desk {
    number: u64,
    line: Option<AnyLine>,
    tables: Tables,
}

impl Desk {
    fn new(heap: Global) -> Desk {
        Desk {
            number: 0,
            line: None,
            tables: Tables::new(heap),
        }
    }

    // One more line of the script begins.
    pub fn begin(&mut self) {
        self.number = self.number.saturating_add(1);
    }

    // Ends a line: tells a bad line and a refusal, behind which the script goes on.
    pub fn end(&self, rt: &HostRuntime, word: &str, done: Result<(), Stop>) -> Result<(), Stop> {
        match done {
            Ok(()) => {}
            Err(Stop::Bad(bad)) => println!(rt; "error: line {}: {bad}", self.number)?,
            Err(stop @ (Stop::Output(_) | Stop::Memory(_))) => return Err(stop),
            Err(refusal) => println!(rt; "{word}: {refusal}")?,
        }
        Ok(())
    }

    // Carries out a command that needs no slots.
    // Stays: an arm a command, each given the runtime and its words; a struct of both would be taken apart at once.
    pub fn carry_out(&mut self, rt: &HostRuntime, word: &str, rest: &str) -> Result<(), Stop> {
        match word {
            "" => Ok(()),
            "read" => messages_shown::read(rt, rest),
            "line" => lines_used::open(rt, &mut self.line, rest),
            "put" => lines_used::put(rt, &mut self.line, rest),
            "take" => lines_used::take(rt, &mut self.line, rest),
            "places" => lines_used::places(rt, &self.line, rest),
            "prefix" => self.tables.prefix(rt, rest),
            "plan" => self.tables.plan(rt, rest),
            "code" => self.tables.code(rt, rest),
            "subsystem" => self.tables.subsystem(rt, rest),
            "map" => self.tables.map(rt, rest),
            "translate" => self.tables.translate(rt, rest),
            "piece" | "tick" | "copy" | "release" | "account" => Err(BadLine::NoSlots.into()),
            "help" => Ok(println!(rt; "{HELP}")?),
            _ => Err(BadLine::Unknown.into()),
        }
    }

    // Plays lines, each by a way to carry out commands.
    pub fn play<F>(
        &mut self,
        rt: &HostRuntime,
        lines: &[&str],
        mut carry_out: F,
    ) -> Result<(), Stop>
    where
        F: FnMut(&mut Desk, &str, &str) -> Result<(), Stop>,
        requires { F.IsAlwaysCallable carry_out }
    {
        for line in lines {
            self.begin();
            let (word, rest) = words::command(line);
            let done = carry_out(self, word, rest);
            self.end(rt, word, done)?;
        }
        Ok(())
    }

    // Plays lines for which no slots are open.
    pub fn play_alone(&mut self, rt: &HostRuntime, lines: &[&str]) -> Result<(), Stop> {
        self.play(rt, lines, |desk, word, rest| desk.carry_out(rt, word, rest))
    }
}

// Whether a line opens slots.
fn opens_slots(line: &str) -> bool {
    words::command(line).0 == "slots"
}

// Plays a script: in one piece the lines before the first that opens slots, and in one each
// such line with those behind it, to which its slots are open.
pub fn play(rt: &HostRuntime, lines: &[&str]) -> Result<(), Stop> {
    let mut desk = Desk::new(rt.alloc());
    for group in lines.chunk_by(|_, next| !opens_slots(next)) {
        match group {
            [line, behind @ ..] if opens_slots(line) => slots_used::play(
                rt, &mut desk, line, behind,
            )?,
            _ => desk.play_alone(rt, group)?,
        }
    }
    Ok(())
}
