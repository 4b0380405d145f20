// Names of functions, compared with names that are known.
ghost use Rattle.std.specs.Prelude.{◌≡◌};
ghost use Rattle.definitions.specs.Words.Basics.{same_name};
ghost use Rattle.definitions.specs.Filter.Names.{lower_case};

// Whether a name is this one: the definition's comparison, which is stated of every name.
#[inline(always)]
pub fn same_name(name: &[u8], other: &[u8]) -> bool
    ensures { result ≡ same_name name.now other.now }
{
    name == other
}

// The same without regard to the case of ASCII letters; `other` has small ones. (The library's comparison takes capital letters of both
// sides as small.)
pub fn same_name_ignore_case(name: &[u8], other: &[u8]) -> bool
    ensures { result ≡ same_name (lower_case name.now) other.now }
{
    if name.len() != other.len() {
        return false;
    }
    for (i, c) in other.iter().enumerate() {
        if name[i].to_ascii_lowercase() != *c {
            return false;
        }
    }
    true
}
