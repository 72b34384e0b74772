//! A volume that keeps what the host is promised.
ghost use Rattle.std.specs.Prelude.{[]};
ghost use Rattle.host_machine.specs.laws.Sample.{over, told, begun_host, both_done, Stands};
ghost use Rattle.host_machine.specs.laws.Contract.{Contract, StandsAs};
ghost use Rattle.host_machine.specs.laws.Rules.{Keeps};

/// A law, which does nothing when it is called: what the host is promised of volumes and trees can be kept, by a volume of
/// one file with one block. A session over it keeps all rules where it is opened, and after the file was written and
/// removed.
pub fn promises_of_volumes_can_be_kept()
    ensures contract { Contract over (StandsAs told) }
    ensures opened { Keeps over Stands begun_host [] 0 }
    ensures done { Keeps over Stands both_done [] 0 }
{}
