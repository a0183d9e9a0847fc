// Runs scripts: calls as text in, their answers as text out, a line for each as soon as it is read.
#![tactic(auto)]

ghost use Rattle.std.specs.Prelude.{◌≡◌, ◌&&◌, is_ok, IfOk};
ghost use Rattle.script.specs.Texts.{readable, spoken, taken_spoken};

use anyhow::anyhow;
use gathered::LineBuffer;
use script::lines::answer;
use script::response::Response;
use script::session::Session;
use std::alloc::{AllocError, Global};
use std::fs::File;
use std::io::{BufRead, BufReader, Read};
use std::{env, io};

// Prints what is said to a line. Answers whether the line could be read.
fn print_response(rt: &HostRuntime, said: &Response) -> io::Result<bool>
    ensures { IfOk result (λ b. b ≡ readable (spoken said.now)) }
{
    if let Some(text) = said.text() {
        println!(rt; "{text}")?;
    }
    Ok(said.is_readable())
}

// What comes of taking a chunk of input: the line goes on, or has ended, or the input has.
#[derive(Clone, Copy)]
enum Chunk {
    GoesOn,
    EndsLine,
    EndsInput,
}

// Takes the next chunk of input into the line.
fn next_chunk<R: Read>(input: &mut BufReader<R>, line: &mut LineBuffer) -> anyhow::Result<Chunk> {
    let chunk = input.fill_buf()?;
    if chunk.is_empty() {
        return Ok(Chunk::EndsInput);
    }
    let taken = line.take(chunk)?;
    input.consume(taken.used);
    if taken.ended {
        Ok(Chunk::EndsLine)
    } else {
        Ok(Chunk::GoesOn)
    }
}

// A script that is run: its session, the line that is gathered, the number of that line, and whether every line that
// was answered was readable. That is a flag and no error, since every line is to be read and answered.
#[derive(Drop)]
struct ScriptRun<S: Session> {
    session: S,
    line: LineBuffer,
    number: u64,
    readable: bool,
}

impl<S: Session> ScriptRun<S> {
    // A script of which nothing has come yet.
    fn begin(heap: Global) -> ScriptRun<S> {
        ScriptRun {
            session: S::begin(),
            line: LineBuffer::new(heap),
            number: 1,
            readable: true,
        }
    }

    // Answers the line that was gathered, and prints what is said. The next line begins.
    // A failed write stays apart from want of memory: one error for both takes 280 bytes, which each line without one would clear and copy.
    fn answer_line(&mut self, rt: &HostRuntime) -> Result<io::Result<()>, AllocError>
        ensures readable { IfOk result (λ printed. IfOk printed (λ _. self.new.readable ≡ (self.old.readable && readable (taken_spoken S.call_read S.call_spoken self.old.number (S.held self.old.session) self.old.line)))) }
    {
        let said = answer(&mut self.session, rt.alloc(), self.number, &mut self.line)?;
        match print_response(rt, &said) {
            Ok(readable) => {
                self.readable &= readable;
                self.number = self.number.saturating_add(1);
                Ok(Ok(()))
            }
            Err(e) => Ok(Err(e)),
        }
    }

    // Answers each line of the input.
    fn read_all<R: Read>(
        &mut self,
        rt: &HostRuntime,
        input: &mut BufReader<R>,
    ) -> anyhow::Result<()> {
        // A loop is to end, and no script has as many chunks.
        for _ in 0..u64::MAX {
            match next_chunk(input, &mut self.line)? {
                Chunk::GoesOn => {}
                Chunk::EndsLine => self.answer_line(rt)??,
                Chunk::EndsInput => break,
            }
        }
        // The last line may end without a newline.
        if !self.line.is_empty() {
            self.answer_line(rt)??;
        }
        Ok(())
    }
}

// Runs one script. Answers whether every line was readable.
fn run_script<S: Session, R: Read + Drop>(rt: &HostRuntime, source: R) -> anyhow::Result<bool> {
    let heap = rt.alloc();
    let mut input = BufReader::new(heap, source)?;
    let mut run = ScriptRun::<S>::begin(heap);
    run.read_all(rt, &mut input)?;
    Ok(run.readable)
}

// Runs the script in a file. One that cannot be read is named on standard error, where both programs call themselves
// `safte`: `shelves` is that program with more calls, and what it prints there is to stay.
fn run_file<S: Session>(rt: &HostRuntime, name: &str) -> anyhow::Result<bool> {
    println!(rt; "== {name}")?;
    let ran = match File::open(rt, name) {
        Ok(file) => run_script::<S, File>(rt, file),
        Err(e) => Err(e.into()),
    };
    match ran {
        Ok(readable) => Ok(readable),
        Err(e) => {
            eprintln!(rt; "safte: {name}: {e}")?;
            Ok(false)
        }
    }
}

// Runs the scripts that are named, each as a script of its own, or else standard input.
fn run_all<S: Session>(rt: &HostRuntime) -> anyhow::Result<bool> {
    let mut names = env::args(rt)?.skip(1);
    let Some(first) = names.next() else {
        return run_script::<S, _>(rt, rt.stdin());
    };
    let mut readable = run_file::<S>(rt, first.as_str())?;
    for name in names {
        readable &= run_file::<S>(rt, name.as_str())?;
    }
    Ok(readable)
}

// A program fails if a line was unreadable.
fn passed(readable: bool) -> anyhow::Result<()>
    ensures { is_ok result ≡ readable }
{
    if readable {
        Ok(())
    } else {
        Err(anyhow!("not every line could be read"))
    }
}

// The program that runs scripts of one kind.
pub fn run<S: Session>(rt: &HostRuntime) -> anyhow::Result<()> {
    let readable = run_all::<S>(rt)?;
    passed(readable)
}
