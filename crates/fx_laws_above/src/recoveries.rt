//! Laws of a journal that a stopped machine has left: what `recover` gives of it.
ghost use Rattle.fx_commands.specs.Recoveries.Wrong.{LegalImagesAreGood};
ghost use Rattle.fx_laws_above.specs.Recovering.{RecoversTold, RecoversFront};

/// Where a machine stops now, `recover` on the same texts and folder gives the folder after all commits that were told, or
/// after these and one more; and it says how many they are.
pub fn recover_gives_what_was_told()
    ensures { RecoversTold }
{}

/// Where it had stopped at any moment since the journal was started, `recover` gives the folder after some first commits of
/// these.
pub fn recover_gives_a_front()
    ensures { RecoversFront }
{}

/// What spells a legal order has no record that breaks, and no entry that makes the order not legal.
pub fn legal_images_are_good()
    ensures { LegalImagesAreGood }
{}
