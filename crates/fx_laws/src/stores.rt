//! Laws of stores: storing what is there changes nothing, what is stored is fetched, and a second store overwrites the first.
ghost use Rattle.fx_laws.specs.Fetched.{FileStoresAreFetched, NewStoresAreFetched, LinkStoresAreFetched, DirectoryStoresAreFetched};
ghost use Rattle.fx_laws.specs.Overwritten.{FileStoresOverwrite};
ghost use Rattle.fx_laws.specs.Stored.{SameContentIsAccepted, SameContentChangesNothing, FetchedIsAccepted, SameStoreChangesNothing, SameStoreLeavesNothing, FetchedStoreChangesNothing, FetchedStoreLeavesNothing};

/// On a whole filestore the store of what a file, a directory or a link holds already is accepted, and sets the node to
/// what it is.
pub fn a_store_of_the_same_content_is_accepted()
    ensures { SameContentIsAccepted }
{}

/// On every filestore where such a store is accepted, each path has afterwards what it had before.
pub fn a_store_of_the_same_content_changes_nothing()
    ensures { SameContentChangesNothing }
{}

/// On a whole filestore the store of what is fetched at a file, a directory or a link is accepted, and sets the node to
/// what it is.
pub fn a_store_of_what_is_fetched_is_accepted()
    ensures { FetchedIsAccepted }
{}

/// A transaction's command `store(e)` changes no path where `e` gives what is there.
pub fn a_command_that_stores_the_same_content_changes_nothing()
    ensures { SameStoreChangesNothing }
{}

/// A transaction that is done and ends with such a command leaves what it leaves without it.
pub fn a_transaction_that_stores_the_same_content_leaves_the_same()
    ensures { SameStoreLeavesNothing }
{}

/// `fetch x : shape store(x)` changes no path, from every place and on every filestore.
pub fn a_fetch_and_a_store_change_nothing()
    ensures { FetchedStoreChangesNothing }
{}

/// A transaction that is done and ends with them leaves what it leaves without them.
pub fn a_transaction_that_fetches_and_stores_leaves_the_same()
    ensures { FetchedStoreLeavesNothing }
{}

/// What is stored at a file that is there is fetched there: bytes as bytes, a flag as the flag.
pub fn what_is_stored_at_a_file_is_fetched()
    ensures { FileStoresAreFetched }
{}

/// What is stored where nothing is, is fetched there: a file's bytes, its flag, a directory's names, a link's text.
pub fn what_is_stored_where_nothing_is_is_fetched()
    ensures { NewStoresAreFetched }
{}

/// What is stored at a link that is there is fetched there, if resolution looks at the link last and not before.
pub fn what_is_stored_at_a_link_is_fetched()
    ensures { LinkStoresAreFetched }
{}

/// What is stored at a directory that is there is fetched there, if the store changes nothing that resolution looks at but the
/// directory itself.
pub fn what_is_stored_at_a_directory_is_fetched()
    ensures { DirectoryStoresAreFetched }
{}

/// Two stores at a file that is there, one after the other, leave what the second one leaves by itself, be they of its bytes or
/// of its flag.
pub fn a_second_store_overwrites_the_first()
    ensures { FileStoresOverwrite }
{}
