//! What holds of classes. The law is a function that does nothing beside calling the laws that it
//! rests on, and its contract is the law.

ghost use Rattle.std.specs.Prelude.{◌≡◌, List};
ghost use Rattle.rela_flows.specs.declared.prefix.Ipv4Prefix.{Ipv4Prefix};
ghost use Rattle.rela_prefixes.specs.Classes.{AreClasses};

use rela_flows::prefixes_of_one_length_are_apart;

/// The classes that some prefixes cut are one list.
pub fn classes_are_unique()
    ensures { (prefixes cs ds : List Ipv4Prefix) → AreClasses prefixes cs → AreClasses prefixes ds
        → cs ≡ ds }
{
    prefixes_of_one_length_are_apart();
}
