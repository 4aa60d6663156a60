//! Files that are made, and what stands at paths.
use anyhow::Result;
use std::fs::Permissions;
use std::os::unix::fs::{PermissionsExt, symlink};
use std::rt::Files;
use std::{fs, io};

/// The permissions of the files that are made.
const MODE: u32 = 0o622;

/// Makes a file.
fn make<R: Files>(rt: &R, path: &str) -> io::Result<()> {
    fs::write(rt, path, b"old".as_slice())?;
    fs::set_permissions(rt, path, Permissions::from_mode(MODE))
}

/// Makes the files at a path with numbers behind it, from 1 and up to this one.
fn make_numbered<R: Files + AllocGlobal>(rt: &R, path: &str, count: u64) -> Result<()> {
    for number in 1..=count {
        let path = format!(in rt.alloc(); "{path}-{number}")?;
        make(rt, path.as_str())?;
    }
    Ok(())
}

/// Makes the file of a word, with `PATH>TO` a link, or with `PATH*N` files with numbers.
fn make_word<R: Files + AllocGlobal>(rt: &R, word: &str) -> Result<()> {
    if let Some((path, to)) = word.split_once('>') {
        symlink(rt, to, path)?;
    } else if let Some((path, count)) = word.split_once('*') {
        make_numbered(rt, path, count.parse::<u64>().unwrap_or(0))?;
    } else {
        make(rt, word)?;
    }
    Ok(())
}

/// Makes the files and links of words.
pub(crate) fn make_all<R: Files + AllocGlobal>(rt: &R, words: &str) -> Result<()> {
    for word in words.split(' ') {
        make_word(rt, word)?;
    }
    Ok(())
}

/// Whether a file stands at a path, and whether it has the permissions of the files that are made.
fn mark<R: Files>(rt: &R, path: &str) -> &'static str {
    match fs::symlink_metadata(rt, path) {
        Ok(found) if !found.is_file() => "no file",
        Ok(found) if found.permissions().mode() & 0o777 == MODE => "622",
        Ok(_) => "file",
        Err(_) => "nothing",
    }
}

/// Appends what stands at a path.
fn push_standing<R: Files + AllocGlobal>(rt: &R, path: &str, text: &mut String) -> Result<()> {
    let mark = mark(rt, path);
    let held = fs::read_to_string(rt, path).unwrap_or(String::new(rt.alloc()));
    write!(text, ", {path} {mark} {held:?}")?;
    Ok(())
}

/// Appends what stands at paths.
pub(crate) fn push_all<R: Files + AllocGlobal>(
    rt: &R,
    paths: &str,
    text: &mut String,
) -> Result<()> {
    for path in paths.split(' ') {
        push_standing(rt, path, text)?;
    }
    Ok(())
}
