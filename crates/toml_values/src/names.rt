//! The names of a table.
ghost use Rattle.std.specs.Prelude.{◌≡◌, map};
ghost use Rattle.std.specs.List.{list_any};
ghost use Rattle.std.specs.Option.{option_copied};
ghost use Rattle.std.specs.Ordering.{eq_by_cmp};
ghost use Rattle.key_names.specs.Order.{bytes_cmp};
ghost use Rattle.toml.specs.View.{table_view};
ghost use Rattle.toml_values.specs.Document.{other_name};

use toml::Table;

// Whether the name is one of these.
fn is_among(name: &str, names: &[&str]) -> bool
    ensures { result ≡ list_any (eq_by_cmp bytes_cmp name.now) (map (λ n. n.now) names.now) }
{
    names.iter().any(|known| name.cmp(*known).is_eq())
}

/// The first of the table's names, in their order, that is none of these; None exactly where each is one. It takes no memory, and the
/// time of comparing each with each.
pub fn other_name<'a>(table: &'a Table, names: &[&str]) -> Option<&'a str>
    ensures { option_copied result ≡ other_name (map (λ n. n.now) names.now) (table_view table.now) }
{
    for (name, _) in table.iter() {
        let name = name.as_str();
        if !is_among(name, names) {
            return Some(name);
        }
    }
    None
}
