// Reads a logger's readings on standard input and prints their mean in tenths of a degree, or `refused=NUMBER,READING`. Where standard input
// cannot be read to its end nothing is printed, and standard error says so, as it does where what was printed could not be written. With a word
// behind its name it reads nothing, and says there how it is used.
#![tactic(auto)]

use logger::BYTES_MOST;
use std::io::Write;
use streams::Words;

// Room for the most readings and one byte more, so that too many are seen to be too many.
const ROOM: usize = BYTES_MOST + 1;

const WORDS: Words = Words {
    usage: b"usage: mean < READINGS\nreads a logger's readings on standard input and prints their mean or refusal; it takes no words and no file names\n",
    unread: b"mean: the readings could not be read\n",
    unwritten: b"mean: the answer could not be written\n",
};

// What the three programs do alike is `streams::run`; here stand the words, the room and the answer of this one.
fn main(rt: HostRuntime) {
    streams::run(rt, &WORDS, &mut [0; ROOM], |room, n| {
        let mut text = [0; 64];
        let k = logger::print(room, n, &mut text);
        rt.stdout().write_all(&text[..k])
    });
}
