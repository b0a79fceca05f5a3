//! The versions of a path, the oldest first.
ghost use Rattle.std.specs.Prelude.{◌≡◌};
ghost use Rattle.std.specs.Option.{option_copied};
ghost use Rattle.fx_shared.specs.Versions.{AreAscending, version_at};

use fx_store::Node;

/// What an entry has left at a path.
#[derive(Drop)]
pub(crate) struct Version {
    pub entry: u64,
    pub node: Option<Node>,
}

/// What the last version before an entry has left; else what was loaded.
pub(crate) fn node_at<'a>(
    versions: &'a [Version],
    loaded: Option<&'a Node>,
    entry: u64,
) -> Option<&'a Node>
    requires { AreAscending versions.now }
    ensures { option_copied result ≡ version_at (option_copied loaded.entry) versions.now entry }
{
    let count = versions.partition_point(|version| version.entry < entry);
    if count == 0 {
        return loaded;
    }
    versions[count - 1].node.as_ref()
}
