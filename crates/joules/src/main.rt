// Reads a sheet on standard input and prints its heats in joules, or `refused=NUMBER,LINE,FIELD`. Where standard input cannot be read to its end
// nothing is printed, and standard error says so, as it does where what was printed could not be written. With a word behind its name it reads
// nothing, and says there how it is used.
#![tactic(auto)]

mod program;

use program::print;
use sheet::SHEET_MOST;
use std::io::Write;
use streams::Words;

// Room for the longest sheet and one byte more, so that a longer one is seen to be longer.
const ROOM: usize = SHEET_MOST + 1;

const WORDS: Words = Words {
    usage: b"usage: joules < SHEET\nreads a sheet on standard input and prints its heats or its refusal; it takes no words and no file names\n",
    unread: b"joules: the sheet could not be read\n",
    unwritten: b"joules: the answer could not be written\n",
};

// What the three programs do alike is `streams::run`; here stand the words, the room and the answer of this one.
fn main(rt: HostRuntime) {
    streams::run(rt, &WORDS, &mut [0; ROOM], |room, n| {
        let mut text = [0; 1024];
        let k = print(room, n, &mut text);
        rt.stdout().write_all(&text[..k])
    });
}
