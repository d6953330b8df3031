//! Laws about the encoding of packets, for all bytes and packets.
ghost use Rattle.packet.specs.Laws.{FaultlessBytesAreTexts, TextsAreFaultless, TextsAreOfOnePacket};

/// Bytes encode at most one packet.
pub fn texts_are_of_one_packet()
    ensures { TextsAreOfOnePacket }
{}

/// Encoded bytes have no fault.
pub fn texts_are_faultless()
    ensures { TextsAreFaultless }
{}

/// Only bytes that encode some packet have no fault.
pub fn faultless_bytes_are_texts()
    ensures { FaultlessBytesAreTexts }
{}
