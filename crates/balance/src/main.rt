// Reads a sheet on standard input and prints its report, or `refused=NUMBER,LINE,FIELD`. Where standard input cannot be read to its end there is no
// sheet to answer: nothing is printed, and standard error says so. It also says where what was printed could not be written. Whoever writes a
// word behind its name hears there how it is used, and nothing is read. The exit status says none of these: it is 0 whenever the program itself
// comes to its end.
#![tactic(auto)]

use sheet::SHEET_MOST;
use std::io::Write;
use streams::Words;

// Room for the longest sheet and one byte more, so that a longer one is seen to be longer.
const ROOM: usize = SHEET_MOST + 1;

const WORDS: Words = Words {
    usage: b"usage: balance < SHEET\nreads a sheet on standard input and prints its report or its refusal; it takes no words and no file names\n",
    unread: b"balance: the sheet could not be read\n",
    unwritten: b"balance: the answer could not be written\n",
};

// What the three programs do alike is `streams::run`; here stand the words, the room and the answer of this one.
fn main(rt: HostRuntime) {
    streams::run(rt, &WORDS, &mut [0; ROOM], |room, n| {
        let mut text = [0; 1024];
        let k = kiln::print(room, n, &mut text);
        rt.stdout().write_all(&text[..k])
    });
}
