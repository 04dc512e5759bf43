//! Tags, read from their bytes.
ghost use Rattle.std.specs.Prelude.{◌≡◌, ◌≤◌, ◌∷◌, [], length, map, false, IfOk};
ghost use Rattle.std.specs.Option.{option_map};
ghost use Rattle.template_reader.specs.Words.{words};
ghost use Rattle.template_reader.specs.Says.{name_of, is_else, expr_of, begin_form, finish_form, plain_form, form_of, without_front, without_back, tag_of};

use crate::Expr;
use crate::expressions::read_expr;
use crate::paths::read_path;
use crate::scan::tail;
use crate::tag::{Form, Name, Tag};
use crate::words::{is_same, words};
use std::alloc::{AllocError, Global};

// The name of a block, if the word is one.
fn read_name(word: &[u8]) -> Option<Name>
    ensures { result ≡ name_of word.now }
{
    if is_same(word, b"if") {
        Some(Name::If)
    } else if is_same(word, b"unless") {
        Some(Name::Unless)
    } else if is_same(word, b"each") {
        Some(Name::Each)
    } else {
        None
    }
}

// A begin of a block, if these two words are one.
#[tactic(auto, unfolding(crate::specs::Says::begin_form))]
fn begin(alloc: Global, name: &[u8], path: &[u8]) -> Result<Option<Form>, AllocError>
    ensures { IfOk result (λ o. o ≡ begin_form (name.now ∷ path.now ∷ [])) }
{
    let Some(name) = read_name(name) else {
        return Ok(None);
    };
    match read_path(alloc, path)? {
        Some(path) => Ok(Some(Form::Begin { name, path })),
        None => Ok(None),
    }
}

#[tactic(auto, unfolding(crate::specs::Says::begin_form))]
fn read_begin(alloc: Global, words: &[&[u8]]) -> Result<Option<Form>, AllocError>
    ensures { IfOk result (λ o. o ≡ begin_form (map (λ word. word.now) words.now)) }
{
    match words {
        [] => Ok(None),
        [_] => Ok(None),
        [name, path] => begin(alloc, name, path),
        [_, _, _, ..] => Ok(None),
    }
}

#[tactic(auto, unfolding(crate::specs::Says::finish_form))]
fn read_finish(words: &[&[u8]]) -> Option<Form>
    ensures { result ≡ finish_form (map (λ word. word.now) words.now) }
{
    match words {
        [] => None,
        [name] => match read_name(name) {
            Some(name) => Some(Form::Finish { name }),
            None => None,
        },
        [_, _, ..] => None,
    }
}

fn print_form(expr: Option<Expr>) -> Option<Form>
    ensures { result ≡ option_map Form.Print expr }
{
    match expr {
        Some(expr) => Some(Form::Print { expr }),
        None => None,
    }
}

fn is_else(words: &[&[u8]]) -> bool
    ensures { result ≡ is_else (map (λ word. word.now) words.now) }
{
    match words {
        [] => false,
        [word] => is_same(word, b"else"),
        [_, _, ..] => false,
    }
}

#[tactic(auto, unfolding(crate::specs::Says::plain_form))]
fn read_plain(alloc: Global, words: &[&[u8]]) -> Result<Option<Form>, AllocError>
    ensures { IfOk result (λ o. o ≡ plain_form (map (λ word. word.now) words.now)) }
{
    if is_else(words) {
        return Ok(Some(Form::Otherwise));
    }
    Ok(print_form(read_expr(alloc, words)?))
}

#[tactic(auto, unfolding(crate::specs::Says::form_of))]
fn read_form(alloc: Global, content: &[u8]) -> Result<Option<Form>, AllocError>
    ensures { IfOk result (λ o. o ≡ form_of content.now) }
{
    if content.starts_with(b"!") {
        return Ok(Some(Form::Comment));
    }
    if content.starts_with(b"#") {
        let found = words(alloc, tail(content, 1))?;
        return read_begin(alloc, found.as_slice());
    }
    if content.starts_with(b"/") {
        let found = words(alloc, tail(content, 1))?;
        return Ok(read_finish(found.as_slice()));
    }
    let found = words(alloc, content)?;
    read_plain(alloc, found.as_slice())
}

fn without_front(content: &[u8]) -> &[u8]
    ensures { result.now ≡ without_front content.now }
{
    if content.starts_with(b"~") {
        tail(content, 1)
    } else {
        content
    }
}

fn without_back(content: &[u8]) -> &[u8]
    ensures { result.now ≡ without_back content.now }
{
    if content.ends_with(b"~") {
        content.split_at(content.len() - 1).0
    } else {
        content
    }
}

fn with_marks(front: bool, back: bool, form: Option<Form>) -> Option<Tag>
    ensures { result ≡ option_map (λ f. record { front = front; back = back; form = f }) form }
{
    match form {
        Some(form) => Some(Tag { front, back, form }),
        None => None,
    }
}

// What a tag of three braces says: it prints, and has no trim marks.
fn read_print(alloc: Global, content: &[u8]) -> Result<Option<Tag>, AllocError>
    ensures { IfOk result (λ o. o ≡ option_map (λ e. record { front = false; back = false; form = Form.Print e }) (expr_of (words content.now))) }
{
    let found = words(alloc, content)?;
    match read_expr(alloc, found.as_slice())? {
        Some(expr) => Ok(Some(Tag {
            front: false,
            back: false,
            form: Form::Print { expr },
        })),
        None => Ok(None),
    }
}

/// What a tag says, if it says something. The only error is out of memory.
#[tactic(auto, unfolding(crate::specs::Says::tag_of))]
pub fn read_tag(alloc: Global, bytes: &[u8]) -> Result<Option<Tag>, AllocError>
    requires { 2 ≤ length bytes.now }
    ensures { IfOk result (λ o. o ≡ tag_of bytes.now) }
{
    if bytes.starts_with(b"{{{") {
        return read_print(
            alloc,
            tail(bytes, 3).split_at(bytes.len().saturating_sub(6)).0,
        );
    }
    let content = tail(bytes, 2).split_at(bytes.len().saturating_sub(4)).0;
    let rest = without_front(content);
    let form = read_form(alloc, without_back(rest))?;
    Ok(with_marks(content.starts_with(b"~"), rest.ends_with(b"~"), form))
}
