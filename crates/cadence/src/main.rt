// Program `cadence`: prints the listing of a reel file (docs/RULES.md, "Reel file and listing"), from
// standard input to standard output. A step of `listing` says what to do, and here it is done: a part of
// the buffer is read into, or a part of the page written. What the pages then are is the claim
// `ListsEveryInput` of `listing`. What goes wrong is told on standard error: an input that cannot be read,
// an output that cannot be written, which ends the program, and why a file is refused. The program
// sets no exit status, so that ./run goes by what was told.
#![tactic(auto)]

ghost use Rattle.std.specs.Prelude.{◌≡◌, ◌-◌, ◌≤◌, min, length, take};
ghost use Rattle.cadence.specs.Told.{refusal_in};
ghost use Rattle.cadence.specs.Turns.{done_with, Answers};

use listing::Lister;
use pages::Ask;
use std::io::Read;

// On standard error. Where that fails too, nobody is left to be told.
fn tell(text: &[u8]) {
    io::write_all(2, text);
}

// Reads into the buffer from a place on, and answers how many bytes came, no more than there was room for; what
// stands before stays. A read that fails is told, and counts as the end of the input.
fn read(rt: &HostRuntime, buffer: &mut [u8], from: usize) -> usize
    ensures upper_bound { result ≤ length buffer.old - from }
    ensures buffer_unchanged { take (min from (length buffer.old)) buffer.new ≡ take (min from (length buffer.old)) buffer.old }
{
    let start = from.min(buffer.len());
    let part = &mut buffer[start..];
    match rt.stdin().read(part) {
        Ok(n) => n,
        Err(_) => {
            tell(
                b"cadence: standard input cannot be read; expected a reel file; what came before is listed\n",
            );
            0
        }
    }
}

// The part of a page that is used: its first n bytes.
fn front<'a>(page: &'a [u8], n: usize) -> &'a [u8]
    ensures { result.now ≡ take n page.now }
{
    &page[..n.min(page.len())]
}

// The number of the refusal with which a text ends, and 0 where it ends with none. Of all lines only a
// refusal's has a `d` and a space before its last word (`TellsWhatWasSaid`).
#[tactic(auto, unfolding(crate::specs::Told::refusal_in))]
fn refusal(text: &[u8]) -> u8
    ensures { result ≡ refusal_in text.now }
{
    match text {
        [.., b'd', b' ', digit, _] => digit.saturating_sub(b'0'),
        _ => 0,
    }
}

// Tells a refusal in words. A file is refused with no other numbers (`FaultsKnown` of `reel`).
fn tell_refusal(no: u8) {
    match no {
        3 => tell(
            b"cadence: refused with 3: wrong count, parity or present number, pictures and no shape, or bytes after the end; expected 0 or 5 shape numbers, parity and present 0 or 1, no byte more\n",
        ),
        4 => tell(
            b"cadence: refused with 4: the shape is outside its bounds; expected width 1 to 8192, height 1 to 4352, depth 8 to 16, and a stride of at least a row\n",
        ),
        6 => tell(
            b"cadence: refused with 6: the file is cut short; expected three counts, and whole every number, entry and picture that they announce\n",
        ),
        7 => tell(
            b"cadence: refused with 7: a picture, which is stride times height, is too large; expected at most 16384 bytes\n",
        ),
        _ => {}
    }
}

// Writes the used part of a page, and answers whether that could be done; if so, and it ends with a
// refusal, that is told.
fn write(page: &[u8], n: usize) -> bool {
    let text = front(page, n);
    if io::write_all(1, text) {
        tell_refusal(refusal(text));
        return true;
    }
    tell(
        b"cadence: standard output cannot be written; expected room for the listing; the rest of it is lost\n",
    );
    false
}

// What to go on with, if the program goes on. By this contract one that goes on after a failed write is refused.
fn done(lister: Lister, on: bool) -> Option<Lister>
    ensures { result ≡ done_with lister on }
{
    on.then_some(lister)
}

// Does what a step asks for, and gives what is left to go on with; after a write that failed, and once the
// listing is complete, nothing.
fn answered(
    rt: &HostRuntime,
    after: Lister,
    ask: Ask,
    buffer: &mut [u8],
    page: &[u8],
) -> Option<Lister>
    ensures { Answers ask after (length buffer.old) result }
{
    match ask {
        Ask::Unit => done(after, true),
        Ask::Read(from) => {
            let n = read(rt, buffer, from);
            done(after.came(buffer, n), true)
        }
        Ask::Write(n) => done(after, write(page, n)),
        Ask::Stop => done(after, false),
    }
}

// A file takes few steps for each of its bytes, so that none lasts as long as is counted here.
fn run(rt: &HostRuntime) {
    let mut buffer = [0u8; 65536];
    let mut page = [0u8; 65536];
    let mut store = [0u8; 16384];
    let mut lister = Lister::start();
    for _ in 0..u64::MAX {
        let step = lister.step(&mut buffer, &mut store, &mut page);
        match answered(rt, step.lister, step.ask, &mut buffer, &page) {
            Some(next) => lister = next,
            None => return,
        }
    }
}

fn main(rt: HostRuntime) {
    run(&rt);
}
