// The files of an example: its name, and an ending for what the file holds.
use crate::files::Opened;
use arrayvec::ArrayString;
use std::fs;
use std::rt::Files;

// No name and no ending is longer.
const LONGEST: usize = 128;

// The path of a name and an ending, if there is one.
fn path_of(name: &[u8], ending: &str) -> Option<ArrayString<256>> {
    if LONGEST < name.len() || LONGEST < ending.len() {
        return None;
    }
    let name = str::from_utf8(name).ok()?;
    let mut path = ArrayString::from(name).ok()?;
    path.try_push_str(ending).ok()?;
    Some(path)
}

// Opens a file of an example to read it.
pub(crate) fn open<R: Files>(rt: &R, name: &[u8], ending: &str) -> Opened<R::File> {
    let file = match path_of(name, ending) {
        Some(path) => fs::open(rt, path.as_str()).ok(),
        None => None,
    };
    Opened { file }
}

// Opens a file of an example to write it from its start.
pub(crate) fn start<R: Files>(rt: &R, name: &[u8], ending: &str) -> Opened<R::File> {
    let file = match path_of(name, ending) {
        Some(path) => fs::create(rt, path.as_str()).ok(),
        None => None,
    };
    Opened { file }
}
