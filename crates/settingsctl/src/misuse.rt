//! Which word is at fault, where the words ask nothing.
use host_client::{is_verb, pace_in};
use outside_real::plain;
use std::alloc::{AllocError, Global};

const NO_KEY: &str =
    "no key of a setting (it begins with settings; a segment with other bytes than letters, digits, _ and - stands in double quotes)";

// Whether these words of a verb ask something.
fn ask(alloc: Global, words: &[&str]) -> Result<bool, AllocError> {
    let mut copies = Vec::new(alloc);
    for word in words {
        copies.push(String::from_str(alloc, *word)?)?;
    }
    Ok(pace_in(alloc, &copies)?.most > 0)
}

// What is wrong with a word that says no change.
fn wrong_pair(alloc: Global, word: &str) -> Result<&'static str, AllocError> {
    let Some((key, _)) = word.split_once('=') else {
        return Ok("no KEY=JSON");
    };
    if ask(alloc, &["unset", key])? {
        Ok("no JSON (a text stands in double quotes, or comes after --text)")
    } else {
        Ok(NO_KEY)
    }
}

// The first of the words that says no change by itself, with what is wrong, as a line. After `--text` what is after the `=` is no matter.
fn fault_of_pairs(alloc: Global, words: &[String]) -> Result<Option<String>, AllocError> {
    let texts = matches!(words.first(), Some(word) if word.as_str() == "--text");
    for word in words.iter().skip(usize::from(texts)) {
        let word = word.as_str();
        let said = if texts {
            ask(alloc, &["set", "--text", word])?
        } else {
            ask(alloc, &["set", word])?
        };
        if !said {
            let wrong = wrong_pair(alloc, word)?;
            let word = plain(alloc, word)?;
            let word = word.as_str();
            return Ok(Some(format!(in alloc; "{word}: {wrong}")?));
        }
    }
    Ok(None)
}

// The first of the words that is no key of a setting, as a line.
fn fault_of_keys(alloc: Global, words: &[String]) -> Result<Option<String>, AllocError> {
    for word in words {
        let word = word.as_str();
        if !ask(alloc, &["unset", word])? {
            let word = plain(alloc, word)?;
            let word = word.as_str();
            return Ok(Some(format!(in alloc; "{word}: {NO_KEY}")?));
        }
    }
    Ok(None)
}

// The words that a verb takes after its own.
fn wanted_by(verb: &str) -> &'static str {
    match verb {
        "set" => "[--text] KEY=JSON .., no key twice and none below another",
        "unset" => "KEY .., no key twice and none below another",
        "edit" => "TX [--text] KEY=JSON .., no key twice and none below another",
        "plan" => "[TX], or [--text] KEY=JSON .., no key twice and none below another",
        "pending" => "[TX]",
        "commit" | "drop" => "TX",
        "show" => "FILE [TX]",
        "apply" => "[--all]",
        "wait" => "[SECONDS], at most 3600",
        _ => "no word behind it",
    }
}

// What is wrong with the words of a verb, as a line.
fn fault_of_verb(alloc: Global, verb: &str, words: &[String]) -> Result<String, AllocError> {
    let found = match (verb, words) {
        ("set", _) => fault_of_pairs(alloc, words)?,
        ("plan", [_, _, ..]) => fault_of_pairs(alloc, words)?,
        ("edit", [_, pairs @ ..]) => fault_of_pairs(alloc, pairs)?,
        ("unset", _) => fault_of_keys(alloc, words)?,
        _ => None,
    };
    match found {
        Some(line) => Ok(line),
        None => {
            let wanted = wanted_by(verb);
            format!(in alloc; "{verb}: takes {wanted}")
        }
    }
}

/// The word at fault, where the words ask nothing, with what is wrong, as `settings.motd=hi: no JSON (..)`, in one line; None where there is no word.
/// Or out of memory.
pub fn fault_of(alloc: Global, words: &[String]) -> Result<Option<String>, AllocError> {
    let Some((word, behind)) = words.split_first() else {
        return Ok(None);
    };
    let word = word.as_str();
    if is_verb(word) {
        return Ok(Some(fault_of_verb(alloc, word, behind)?));
    }
    let wrong = if word == "-C" {
        "takes DIR and a verb"
    } else if behind.is_empty() || behind.len() > 2 {
        "no verb"
    } else {
        "no verb, and no METHOD in capital letters with a TARGET that begins with / and a BODY"
    };
    let word = plain(alloc, word)?;
    let word = word.as_str();
    Ok(Some(format!(in alloc; "{word}: {wrong}")?))
}
