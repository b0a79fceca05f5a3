//! A case as a folder.
ghost use Rattle.std.specs.Prelude.{◌≡◌, ◌<◌, ◌≤◌, ◌++◌, ◌∷◌, [], true, Some, Err, IfOk, IfErr, OnOk, OnErr, IfSome, length, string_bytes};
ghost use Rattle.fx_store.specs.Names.{IsName};
ghost use Rattle.fx_outside.specs.Path.{parts};
ghost use Rattle.fx_outside.specs.Host.{WritesIn, FaultIn};
ghost use Rattle.fx_outside.specs.Tree.{is_free_at, file};
ghost use Rattle.fx_folder.specs.declared.fault.SaveFault.TheVariants.{WriteFault, NotEmpty};
ghost use Rattle.fx_folder.specs.Reads.{path_below};
ghost use Rattle.fx_folder.specs.Folder.{IsReady, IfTold, SaveCause};
ghost use Rattle.fx_folder.specs.Written.{IsOpen, with_entry, WrotePart, HasEntries};
ghost use Rattle.fx_large_commands.specs.Case.{case_in, script_name, IsCaseWritten, IsPartlyWritten};
ghost use Rattle.fx_large_commands.specs.Wrote.{text_nodes, WroteTexts};

use fx_base::NoMemory;
use fx_folder::{Out, SaveFault, make_folder, save, write_file};
use fx_gen::Generated;
use fx_outside::{Host, HostText};
use std::alloc::Global;

/// How many scripts a case has at most.
const MOST_SCRIPTS: u64 = 10;

/// Writes a case as a folder: the folder itself, unless an empty one is there, then the texts, and last the folder of the
/// filestore. A refusal may leave a part of it: what comes in this order before an entry that is there is there whole, and
/// only the file last begun may hold a prefix of its bytes.
pub(crate) fn write_case<H: Host>(
    alloc: Global,
    host: &mut H,
    path: &HostText,
    there: Out,
    case: &Generated,
) -> Result<(), SaveFault>
    requires ready { IfSome (H.view host.old).told (λ t. IsReady t path.now there) }
    requires few { length case.now.scripts ≤ MOST_SCRIPTS }
    ensures written { OnOk result (IfTold (H.view host.old).told (H.view host.new).told
        (λ t t'. IsCaseWritten t t' (parts path.now) (case_in case.now))) }
    ensures part { OnErr result (IfTold (H.view host.old).told (H.view host.new).told
        (λ t t'. IsPartlyWritten t t' (parts path.now) (case_in case.now))) }
    ensures fault { IfErr result (SaveCause path.now there (H.view host.old) (H.view host.new)) }
    ensures fit { WritesIn path.now (H.view host.old) (H.view host.new) }
{
    make_folder(alloc, host, path, there)?;
    write_texts(alloc, host, path, case)?;
    let inside = place_below(alloc, path, "in")?;
    save(alloc, host, &inside, Out::Absent, &case.store)
}

/// Writes the texts of a case into an empty folder.
fn write_texts<H: Host>(
    alloc: Global,
    host: &mut H,
    folder: &HostText,
    case: &Generated,
) -> Result<(), SaveFault>
    requires open { IfSome (H.view host.old).told (λ t. IsOpen t folder.now) }
    requires few { length case.now.scripts ≤ MOST_SCRIPTS }
    ensures written { OnOk result (IfTold (H.view host.old).told (H.view host.new).told
        (λ t t'. HasEntries t t' (parts folder.now) (text_nodes (case_in case.now)))) }
    ensures partly { OnErr result (IfTold (H.view host.old).told (H.view host.new).told
        (λ t t'. WroteTexts t t' (parts folder.now) (case_in case.now))) }
    ensures fault { result ≡ Err WriteFault
        → FaultIn folder.now (H.view host.old) (H.view host.new) }
    ensures free { result ≡ Err NotEmpty → ⊥ }
    ensures later { (H.view host.old).faults ≤ (H.view host.new).faults }
    ensures fit { WritesIn folder.now (H.view host.old) (H.view host.new) }
{
    write_text(alloc, host, folder, "spec", case.description.as_slice())?;
    'scripts: for number in 0..case.scripts.len() {
        let name = script_name(alloc, number as u64)?;
        match case.scripts.get(number) {
            Some(text) => write_text(alloc, host, folder, &name, text.as_slice())?,
            None => unreachable!(),
        }
    }
    Ok(())
}

/// Writes a text where nothing stands.
fn write_text<H: Host>(
    alloc: Global,
    host: &mut H,
    folder: &HostText,
    name: &str,
    text: &[u8],
) -> Result<(), SaveFault>
    requires name { IsName name.now }
    requires free { IfSome (H.view host.old).told (λ t.
        is_free_at t (path_below folder.now name.now) ≡ true) }
    ensures written { OnOk result (IfTold (H.view host.old).told (H.view host.new).told
        (λ t t'. t' ≡ with_entry t (parts folder.now ++ name.now ∷ []) (Some (file text.now)))) }
    ensures partly { OnErr result (IfTold (H.view host.old).told (H.view host.new).told
        (λ t t'. WrotePart t t' (parts folder.now ++ name.now ∷ []) (Some (file text.now)))) }
    ensures fault { result ≡ Err WriteFault
        → FaultIn folder.now (H.view host.old) (H.view host.new) }
    ensures free { result ≡ Err NotEmpty → ⊥ }
    ensures later { (H.view host.old).faults ≤ (H.view host.new).faults }
    ensures fit { WritesIn folder.now (H.view host.old) (H.view host.new) }
{
    let place = place_below(alloc, folder, name)?;
    write_file(alloc, host, &place, text)
}

/// The name of a script's file.
fn script_name(alloc: Global, number: u64) -> Result<String, NoMemory>
    ensures { IfOk result (λ name. string_bytes name ≡ script_name number) }
{
    let mut name = String::from_str(alloc, "s")?;
    let digits = number.to_string(alloc)?;
    name.push_str(&digits)?;
    Ok(name)
}

/// The host path of an entry of a folder.
fn place_below(alloc: Global, folder: &HostText, name: &str) -> Result<HostText, NoMemory>
    ensures { IfOk result (λ place. place ≡ path_below folder.now name.now) }
{
    let mut text = String::from_str(alloc, folder.as_str())?;
    text.push('/')?;
    text.push_str(name)?;
    Ok(HostText::from_string(text))
}
