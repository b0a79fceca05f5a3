//! The law of the trees that hosts show.
ghost use Rattle.fx_laws.specs.Written.{WrittenIsRead};

/// What is written in a host's tree is read there, and any other path is read as before.
pub fn what_is_written_is_read()
    ensures { WrittenIsRead }
{}
