// The names that registries give to numbers: cipher suites, groups, signature algorithms, extension types, versions and transport
// parameters. A registry is a table of numbers, which rise, and their names.
#![tactic(auto)]

mod suites;
mod tables;

ghost use Rattle.std.specs.Prelude.{◌≡◌, ◌≤◌, cond, length};
ghost use Rattle.script_writing.specs.Shown.{Written};
ghost use Rattle.registries.specs.Names.{numbers_of, names_of, name_of, Tabled};
ghost use Rattle.registries.specs.Registry.{place_of};

use script::words::word_at;
use script_writing::texts::put_text;
use suites::SUITES;
use tables::{ALGORITHMS, GROUPS, PARAMETERS, TYPES, VERSIONS};

// The place of a number in a table; the table's length where it is not there. No Option: a name's definition takes the same place, and asks
// whether it lies in the table (specs/Registry.antt, `name_in`).
pub fn place_of(numbers: &[u64], v: u64) -> usize
    ensures { (result ≡ place_of v numbers.now) × (result ≤ length numbers.now) }
{
    numbers
        .iter()
        .position(|n| *n == v)
        .unwrap_or(numbers.len())
}

// The registries that name numbers.
#[derive(Clone, Copy, PartialEq, Eq, Debug)]
pub enum Registry {
    Suites,
    Groups,
    Algorithms,
    Types,
    Versions,
    Parameters,
}

impl Registry {
    fn table(self) -> &'static [(u64, &'static str)]
        ensures { Tabled (numbers_of self) (names_of self) result.now }
    {
        match self {
            Registry::Suites => SUITES,
            Registry::Groups => GROUPS,
            Registry::Algorithms => ALGORITHMS,
            Registry::Types => TYPES,
            Registry::Versions => VERSIONS,
            Registry::Parameters => PARAMETERS,
        }
    }

    // Writes the name of a number, or of one that has none, whether it is one of those that are kept free.
    pub fn put_name(self, out: &mut [u8], grease: bool, v: u64) -> usize
        ensures { Written (name_of self (cond grease 1 0) v) result out.old out.new }
    {
        self.put_name_by(out, usize::from(grease), v)
    }

    // The same by the place of a spare word, which is written for a number that has no name: nothing where no such word stands.
    pub fn put_name_by(self, out: &mut [u8], spare: usize, v: u64) -> usize
        ensures { Written (name_of self spare v) result out.old out.new }
    {
        match self.table().iter().find(|entry| entry.0 == v) {
            Some(entry) => put_text(out, entry.1.as_bytes()),
            None => put_text(out, word_at(b"unknown GREASE", spare)),
        }
    }
}
