// Folders, and links.
use std::fs;
use std::io::{self, ErrorKind};
use std::path::Path;

// How many links may lead from one to the next.
const LINKS: u32 = 40;

// The folder in which the file of a path stands.
pub(crate) fn folder_of(path: &str) -> &str {
    match Path::new(path).parent() {
        Some(folder) if !folder.as_str().is_empty() => folder.as_str(),
        _ => ".",
    }
}

// The name behind all links, which may be the name of no file. A link that leads to a name which is no UTF-8 is an error.
pub(crate) fn end_of_links(rt: &HostRuntime, path: &str) -> io::Result<String> {
    let mut name = String::from_str(rt.alloc(), path)?;
    for _ in 0..LINKS {
        match fs::read_link(rt, name.as_str()) {
            Ok(text) => name = linked(rt, name.as_str(), text.as_str())?,
            // (what is no link, or is not there)
            Err(error) if matches!(error.kind(), ErrorKind::InvalidInput | ErrorKind::NotFound) =>
                break,
            Err(error) => return Err(error),
        }
    }
    Ok(name)
}

// The path that a link's text names, where the link stands at a path.
fn linked(rt: &HostRuntime, path: &str, text: &str) -> io::Result<String> {
    if text.starts_with('/') {
        return Ok(String::from_str(rt.alloc(), text)?);
    }
    let folder = folder_of(path);
    Ok(format!(in rt.alloc(); "{folder}/{text}")?)
}
