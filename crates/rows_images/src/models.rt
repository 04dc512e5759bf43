//! Model files: what they say, and their first fault.
use key_names::Key;
use model_file::{Model, ModelError};
use row_files::line;
use settings_maps::NamedValues;
use settings_tree::Content;
use std::io::{self, Write};

/// Tells the kind of a fault and where it is, as a line.
pub fn fault(out: &mut Vec<u8>, error: &ModelError) -> io::Result<()> {
    writeln!(out, "{:?} {}", error.kind, error.at.as_str())
}

fn tell_values(out: &mut Vec<u8>, content: &Content) -> io::Result<()> {
    for (key, value) in content.values().iter() {
        let (key_text, json) = (key.print()?, value.print(*out.allocator())?);
        line(out, &["value", key_text.as_str(), json.as_str()])?;
    }
    Ok(())
}

// Tells the metadata of the key.
fn tell_named(out: &mut Vec<u8>, key: &Key, names: &NamedValues) -> io::Result<()> {
    let key_text = key.print()?;
    for (name, value) in names.as_slice() {
        let json = value.print(*out.allocator())?;
        line(
            out,
            &["meta", key_text.as_str(), name.as_str(), json.as_str()],
        )?;
    }
    Ok(())
}

fn tell_metadata(out: &mut Vec<u8>, content: &Content) -> io::Result<()> {
    for (key, names) in content.metadata().iter() {
        tell_named(out, key, names)?;
    }
    Ok(())
}

/// Tells what the model file says: how many rows its types have, the names of the operating system, its values and its metadata; or its first fault.
pub fn tell(out: &mut Vec<u8>, text: &[u8]) -> io::Result<()> {
    let model = match Model::read(*out.allocator(), text) {
        Ok(model) => model,
        Err(error) => return fault(out, &error),
    };
    writeln!(out, "rows {}", model.types.len())?;
    for os in model.os.names() {
        line(out, &["os", os.name.as_str(), os.text.as_str()])?;
    }
    tell_values(out, &model.content)?;
    tell_metadata(out, &model.content)
}
