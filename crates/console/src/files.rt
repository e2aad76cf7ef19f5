// The texts of a job, from files.
ghost use Rattle.console.specs.Counts.{IsPrefixLen};

use std::fs::File;
use std::io::Read;
use std::rt::Files;

// Reads the file of this name to the front of `text` and answers how many bytes that is; of a file that is longer it reads as much as `text`
// holds. A file that cannot be opened counts as empty, as one does whose name is no UTF-8, and so does one that cannot be read to its end.
//
// Open is what the system's `read` puts into `text`, of which it promises nothing; so is how many bytes a file has.
pub fn read_text(rt: &impl Files, name: &[u8], text: &mut [u8]) -> usize
    ensures { IsPrefixLen result text.new }
{
    let Ok(path) = str::from_utf8(name) else {
        return 0;
    };
    let Ok(mut file) = File::open(rt, path) else {
        return 0;
    };
    read_open(&mut file, text)
}

// Reads an open file to the front of `text` until that is full or the file ends; 0 where a read fails.
fn read_open(file: &mut impl Read, text: &mut [u8]) -> usize
    ensures { IsPrefixLen result text.new }
{
    let mut used: usize = 0;
    // No range to go over: each read says how much it gave. To read on until the end is std's for a `Vec` alone, and there is no heap.
    while used < text.len() {
        let Ok(more) = file.read(&mut text[used..]) else {
            return 0;
        };
        if more == 0 {
            return used;
        }
        used += more;
    }
    used
}
