//! What flows through a port, by the definitions alone.

ghost use Rattle.vx_ports.specs.Lives.{LinkFlows};
ghost use Rattle.vx_ports.specs.Packets.{LastIsFinal};

/// Where Last was taken, nothing was taken after it.
pub fn last_is_final()
    ensures { LastIsFinal }
{}

/// Whatever is put on a link and taken from it, by calls that keep their contracts: what was taken is a prefix of what was put.
pub fn link_flows()
    ensures { LinkFlows }
{}
