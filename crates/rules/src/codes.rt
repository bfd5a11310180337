// The numbers of links, past those of the machines. Searches and the listing go by them.
ghost use Rattle.std.specs.Prelude.{◌≡◌};
ghost use Rattle.rules.specs.Words.{link};
ghost use Rattle.rules.specs.Asked.{HasLink};
ghost use Rattle.rules.specs.Codes.{resource_number};

use crate::MACHINES;

// The number of the link from machine a to machine b, past those of the machines.
pub fn link_number(a: u64, b: u64) -> u64
    requires { HasLink a b }
    ensures { result ≡ resource_number (link a b) }
{
    a * ((MACHINES + 1) as u64) + b
}
