// Bytes moved between the standard streams and slices. A call that moves fewer bytes than asked goes on from there, and one that was interrupted
// or came too early is made again. Any other failure ends the moving and is told on standard error.
ghost use Rattle.std.specs.Prelude.{◌≤◌, length, IfOk, IfSome};

use std::fmt::InlineText;
use std::fs::{File, OpenFile};
use std::io::{ErrorKind, Input, Read};
use std::rt::{Clock, Files};
use std::time::Duration;
use std::{fs, io, thread};

// A failure that has been told on standard error.
#[derive(Clone, Copy)]
pub(crate) struct Told;

// The words of an error without the number that stands after the system's.
fn words_alone(text: &str) -> &str {
    match text.split_once(" (os error ") {
        Some((words, _)) => words,
        None => text,
    }
}

// A line on standard error: what failed, and the words for the error. Where it cannot be written, nobody can be told.
fn tell(rt: &impl Eprint, what: &str, words: &str) {
    let _ = rt.eprintln(format_args!("supervise: {what}: {words}"));
}

fn fail(rt: &impl Eprint, what: &str, error: io::Error) {
    let text = InlineText::<256>::of(error);
    tell(rt, what, words_alone(text.as_str()));
}

// A millisecond, so that a wait takes little of the processor.
fn sleep_briefly(clock: &impl Clock) {
    thread::sleep(clock, Duration::from_millis(1));
}

// Whether the call that failed so is to be made again: a signal interrupted it, or its descriptor, in non-blocking mode, was not ready, and
// some time has passed since.
fn again(clock: &impl Clock, error: &io::Error) -> bool {
    let kind = error.kind();
    if kind == ErrorKind::WouldBlock {
        sleep_briefly(clock);
        return true;
    }
    kind == ErrorKind::Interrupted
}

// The bytes that a call moved, of at most so many: none where it is to be made again. Any other failure is told.
fn taken(
    rt: &(impl Eprint + Clock),
    what: &str,
    got: io::Result<usize>,
    most: usize,
) -> Result<Option<usize>, Told>
    ensures { IfOk result (λ moved. IfSome moved (λ n. n ≤ most)) }
{
    match got {
        Ok(n) => Ok(Some(n.min(most))),
        Err(error) if again(rt, &error) => Ok(None),
        Err(error) => {
            fail(rt, what, error);
            Err(Told)
        }
    }
}

// The input up to the buffer's length; a part is not run as if it were the whole. A proved loop has to end, and nothing says that an input does: so
// the turns are counted, up to a number that no run uses up.
pub(crate) fn read_whole(rt: &(impl Input + Eprint + Clock), buf: &mut [u8]) -> Result<usize, Told>
    ensures { IfOk result (λ n. n ≤ length buf.new) }
{
    let mut input = rt.reader();
    let mut at: usize = 0;
    for _ in 0..u64::MAX {
        let room = buf.len() - at;
        if room == 0 {
            return Ok(at);
        }
        let got = input.read(&mut buf[at..]);
        match taken(rt, "reading standard input", got, room)? {
            Some(0) => return Ok(at),
            Some(n) => at += n,
            None => {}
        }
    }
    Ok(0)
}

// All of it: an output that takes no byte takes none later.
pub(crate) fn write_whole(rt: &(impl Print + Eprint + Clock), buf: &[u8]) -> Result<(), Told> {
    let what = "writing standard output";
    let mut at: usize = 0;
    for _ in 0..u64::MAX {
        let left = buf.len() - at;
        if left == 0 {
            return Ok(());
        }
        let got = rt.write_some(&buf[at..]);
        match taken(rt, what, got, left)? {
            Some(0) => {
                tell(rt, what, "no byte was taken");
                return Err(Told);
            }
            Some(n) => at += n,
            None => {}
        }
    }
    Err(Told)
}

// What the system calls the file under a process's own standard output.
const OUTPUT: &str = "/proc/self/fd/1";

// Has the file under the output, where there is one, keep what was written. One that cannot be opened by its name is left as it is.
fn keep_output(files: &impl Files) -> io::Result<()> {
    match fs::metadata(files, OUTPUT) {
        Ok(found) if found.is_file() => match File::open(files, OUTPUT) {
            Ok(file) => file.sync_all(),
            Err(_) => Ok(()),
        },
        _ => Ok(()),
    }
}

// Some file systems tell only of an output that is closed, or is to be kept, that bytes were lost, and a close by std tells nothing. An output that
// was never open has lost none but those whose write has failed, and a file of a system that keeps none, which says so, has none to lose.
pub(crate) fn close_output(rt: &(impl Files + Eprint)) {
    if let Err(error) = keep_output(rt) {
        let kind = error.kind();
        if !matches!(kind, ErrorKind::InvalidInput | ErrorKind::Unsupported) {
            fail(rt, "closing standard output", error);
        }
    }
}
