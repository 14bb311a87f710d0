//! The words with which a program is called.
#![tactic(auto)]

use std::env::{Env, FillError};
use std::rt::HostRuntime;
use std::str;

/// The system opens no path that is longer, and no command has a longer word.
pub const LONGEST_WORD: usize = 4096;

/// Why a word cannot be had.
#[derive(Clone, Copy)]
pub enum WordFault {
    /// It is no UTF-8, or has more than 4,096 bytes.
    NoText,
    NoMemory,
}

/// The word at a place behind the program's name, from 1 on, or none where there are fewer. No other word is looked at, nor
/// is the name: what is no text there does not matter.
pub fn word(rt: &HostRuntime, place: usize) -> Result<Option<String>, WordFault> {
    let mut bytes = [0; LONGEST_WORD];
    let length = match rt.arg(place, &mut bytes) {
        Ok(length) => length,
        Err(FillError::NotPresent) => return Ok(None),
        Err(FillError::TooLong) => return Err(WordFault::NoText),
    };
    let Ok(text) = str::from_utf8(&bytes[..length]) else {
        return Err(WordFault::NoText);
    };
    match String::from_str(rt.alloc(), text) {
        Ok(word) => Ok(Some(word)),
        Err(_) => Err(WordFault::NoMemory),
    }
}

/// The words behind the program's name.
pub fn words(rt: &HostRuntime) -> Result<Vec<String>, WordFault> {
    let mut words = Vec::new(rt.alloc());
    for place in 1..usize::MAX {
        let Some(word) = word(rt, place)? else {
            break;
        };
        if words.push(word).is_err() {
            return Err(WordFault::NoMemory);
        }
    }
    Ok(words)
}
