// What a driver hands over as a frame is of bytes, whatever it is: so each call of `perform` is one that a history may
// hold.
ghost use Rattle.rules.specs.Tags.{Bytes};

// Its type says so: there is nothing to do.
pub fn is_bytes(frame: &[u8])
    ensures { Bytes frame.now }
{}
