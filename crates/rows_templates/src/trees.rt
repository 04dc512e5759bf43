//! Templates shown as texts: a text in `'`, a print in `<>`, and a block with its parts in `[|]`.
use std::io::{self, Write};
use template_reader::{Expr, Literal, Node, Span, TemplateError, Walk, piece, read};

// What is still to be shown, the next part last.
#[derive(Clone, Copy)]
enum Part<'a> {
    Nodes(&'a [Node]),
    Mark(u8),
}

fn path(out: &mut Vec<u8>, path: &Walk) -> io::Result<()> {
    match path {
        Walk::Root(root) => write!(out, "{}", root.print()?.as_str()),
        Walk::This(None) => write!(out, "@this"),
        Walk::This(Some(below)) => write!(out, "@this.{}", below.print()?.as_str()),
        Walk::AtKey => write!(out, "@key"),
        Walk::AtIndex => write!(out, "@index"),
    }
}

// Adds a text, with a line feed, a carriage return, a tab and a backslash as escapes, so that a tree is one line.
fn text(out: &mut Vec<u8>, text: &[u8]) -> io::Result<()> {
    out.push(b'\'')?;
    for byte in text {
        match byte {
            b'\n' => out.extend_from_slice(b"\\n")?,
            b'\r' => out.extend_from_slice(b"\\r")?,
            b'\t' => out.extend_from_slice(b"\\t")?,
            b'\\' => out.extend_from_slice(b"\\\\")?,
            _ => out.push(*byte)?,
        }
    }
    Ok(out.push(b'\'')?)
}

fn print(out: &mut Vec<u8>, expr: &Expr) -> io::Result<()> {
    out.push(b'<')?;
    match expr {
        Expr::Plain { .. } => {}
        Expr::Default { literal, .. } => match literal {
            Literal::Bool(is_true) => write!(out, "default {is_true} ")?,
            Literal::Int(number) => write!(out, "default {number} ")?,
            Literal::Text(text) => write!(out, "default \"{}\" ", text.as_str())?,
        },
        Expr::Decode { .. } => write!(out, "decode ")?,
        Expr::Json { .. } => write!(out, "json ")?,
        Expr::JoinArray { joiner, .. } => write!(out, "array \"{}\" ", joiner.as_str())?,
        Expr::JoinMap {
            joiner,
            separator,
            fail,
            ..
        } => {
            let (joiner, separator) = (joiner.as_str(), separator.as_str());
            let how = if *fail { "fail" } else { "soft" };
            write!(out, "map \"{joiner}\" \"{separator}\" {how} ")?;
        }
    }
    path(out, expr.path())?;
    Ok(out.push(b'>')?)
}

// Adds the node, to the bracket of its parts where it has some; of a text its place where those are wanted.
fn node(out: &mut Vec<u8>, source: &[u8], node: &Node, has_spans: bool) -> io::Result<()> {
    let (word, walk) = match node {
        Node::Text { span } => {
            let Span { start, end } = *span;
            return if has_spans {
                write!(out, "'{start}-{end}'")
            } else if start <= end && end <= source.len() {
                text(out, piece(source, *span))
            } else {
                text(out, b"")
            };
        }
        Node::Print { expr } => return print(out, expr),
        Node::Test { unless, path, .. } => (if *unless { "unless " } else { "if " }, path),
        Node::Each { path, .. } => ("each ", path),
    };
    out.extend_from_slice(word.as_bytes())?;
    path(out, walk)?;
    Ok(out.push(b'[')?)
}

// Adds the next part, and to the parts those of its first node and the nodes after that.
fn push_part<'a>(
    out: &mut Vec<u8>,
    source: &[u8],
    parts: &mut Vec<Part<'a>>,
    next: Part<'a>,
    has_spans: bool,
) -> io::Result<()> {
    let nodes = match next {
        Part::Mark(mark) => return Ok(out.push(mark)?),
        Part::Nodes(nodes) => nodes,
    };
    let Some((one, rest)) = nodes.split_first() else {
        return Ok(());
    };
    parts.push(Part::Nodes(rest))?;
    node(out, source, one, has_spans)?;
    if let Node::Test { first, other, .. } | Node::Each { first, other, .. } = one {
        parts.push(Part::Mark(b']'))?;
        parts.push(Part::Nodes(other.as_slice()))?;
        parts.push(Part::Mark(b'|'))?;
        parts.push(Part::Nodes(first.as_slice()))?;
    }
    Ok(())
}

/// Tells the kind of the fault and its place, as a line.
pub fn fault(out: &mut Vec<u8>, error: TemplateError) -> io::Result<()> {
    let TemplateError { kind, place } = error;
    writeln!(out, "{kind:?} {place}")
}

/// Tells what the source is read to, with the places of texts or the texts themselves, or its fault, as a line. Each byte of a source makes less than eight
/// parts.
pub fn tell(out: &mut Vec<u8>, source: &[u8], has_spans: bool) -> io::Result<()> {
    let template = match read(*out.allocator(), source) {
        Ok(template) => template,
        Err(error) => return fault(out, error),
    };
    let mut parts = vec![in *out.allocator(); Part::Nodes(template.nodes.as_slice())]?;
    for _ in 0..source.len().saturating_add(1).saturating_mul(8) {
        match parts.pop() {
            Some(next) => push_part(out, source, &mut parts, next, has_spans)?,
            None => break,
        }
    }
    Ok(out.push(b'\n')?)
}
