//! Replies as they are shown, and replies of the server's own, which the reference model writes anew.
ghost use Rattle.machine_answers.specs.Replies.{MayNest};

use api_http::{Reply, print_answer};
use json_trees::{flatten, flatten_patch};
use machine_answers::{Answer, Body};
use row_files::{bad, key_of, parts};
use std::io::{self, Write};

/// Tells the status of the reply, and what is after its head.
pub fn said(out: &mut Vec<u8>, reply: &Reply) -> io::Result<()> {
    let text = str::from_utf8(reply.bytes()).unwrap_or("");
    let (_, body) = text.split_once("\r\n\r\n").unwrap_or((text, ""));
    let mark = if body.is_empty() { "" } else { " " };
    writeln!(out, "{}{mark}{body}", reply.status())
}

fn told(out: &mut Vec<u8>, body: Body) -> io::Result<()>
    requires { MayNest body }
{
    let reply = print_answer(*out.allocator(), &Answer::Said(body))?;
    said(out, &reply)
}

/// Tells the reply with the tree of the values that the text is, below the key: its status and its body.
pub fn values(out: &mut Vec<u8>, text: &str) -> io::Result<()> {
    let (key, json) = parts(text);
    let below = key_of(*out.allocator(), key)?;
    let Ok(pairs) = flatten(*out.allocator(), Some(&below), json.as_bytes()) else {
        return Err(bad());
    };
    let skip = below.len();
    told(out, Body::Values { skip, pairs })
}

/// Tells the reply with the tree of what is pending that the text is: its status and its body.
pub fn pending(out: &mut Vec<u8>, json: &str) -> io::Result<()> {
    let settings = key_of(*out.allocator(), "settings")?;
    let Ok(pairs) = flatten_patch(*out.allocator(), &settings, json.as_bytes()) else {
        return Err(bad());
    };
    if settings.len() != 1 {
        return Err(bad());
    }
    told(out, Body::Pairs(pairs))
}
