//! Looking for a name in a list of names.

ghost use Rattle.std.specs.Prelude.{◌≡◌, map, position, bytes_eq, string_bytes};
ghost use Rattle.std.specs.List.{list_any};

fn position_of(names: &[String], name: &str) -> Option<usize>
    ensures { result ≡ position (λ n. bytes_eq name.now (string_bytes n)) names.now }
{
    names.iter().position(|n| name == n.as_str())
}

/// The position of the first name that is this one, counted from 0.
pub fn find_name(names: &[String], name: &str) -> Option<usize>
    ensures { result ≡ position (bytes_eq name.now) (map string_bytes names.now) }
{
    position_of(names, name)
}

fn is_any(names: &[String], name: &str) -> bool
    ensures { result ≡ list_any (λ n. bytes_eq (string_bytes n) name.now) names.now }
{
    names.iter().any(|n| n.as_str() == name)
}

/// Whether a name is one of these.
pub fn has_name(names: &[String], name: &str) -> bool
    ensures { result ≡ list_any (λ n. bytes_eq n name.now) (map string_bytes names.now) }
{
    is_any(names, name)
}
