//! Whether services list files that are there, and commands that have words.
ghost use Rattle.std.specs.Prelude.{◌≡◌, ◌≢◌, [], Some, IfErr, OnOk};
ghost use Rattle.std.specs.FinMap.{keys, entries};
ghost use Rattle.std.specs.List.{flat_map};
ghost use Rattle.metadata_links.specs.Faults.{first_of, unknown_files, empty_commands, service_faults};
ghost use Rattle.metadata_links.specs.declared.manifest_error.ManifestError.TheVariants.{Memory};

use crate::command::has_word;
use crate::file_row::FileRow;
use crate::manifest_error::ManifestError;
use crate::name_map::NameMap;
use crate::service::Service;
use key_names::Text;

// Refuses the first listed file that isn't there.
fn check_files(
    files: &NameMap<FileRow>,
    service: &Text,
    listed: &[Text],
) -> Result<(), ManifestError>
    ensures ok { OnOk result (unknown_files (keys files.now) service.now listed.now ≡ []) }
    ensures err { IfErr result (λ e. e ≢ Memory
        → first_of (unknown_files (keys files.now) service.now listed.now) ≡ Some e) }
{
    for file in listed {
        if files.get(file.as_str().as_bytes()).is_none() {
            return Err(ManifestError::UnknownFile {
                service: service.copy()?,
                file: file.copy()?,
            });
        }
    }
    Ok(())
}

// Refuses the first command without a word.
fn check_commands(service: &Text, commands: &[Text]) -> Result<(), ManifestError>
    ensures ok { OnOk result (empty_commands service.now commands.now ≡ []) }
    ensures err { IfErr result (λ e. e ≢ Memory
        → first_of (empty_commands service.now commands.now) ≡ Some e) }
{
    for (index, command) in commands.iter().enumerate() {
        if !has_word(command) {
            return Err(ManifestError::EmptyCommand {
                service: service.copy()?,
                index,
            });
        }
    }
    Ok(())
}

fn check_service(
    files: &NameMap<FileRow>,
    name: &Text,
    service: &Service,
) -> Result<(), ManifestError>
    ensures ok { OnOk result (service_faults (keys files.now) (name.now, service.now) ≡ []) }
    ensures err { IfErr result (λ e. e ≢ Memory
        → first_of (service_faults (keys files.now) (name.now, service.now)) ≡ Some e) }
{
    check_files(files, name, service.files.as_slice())?;
    check_commands(name, service.commands.as_slice())
}

/// Refuses the first service, by name, that lists a file that isn't there, or else has a command
/// without a word: for the first such file or command. `Memory` may come at any place. It takes a
/// logarithmic step for each listed file, and one pass over the commands.
pub(crate) fn check_services(
    files: &NameMap<FileRow>,
    services: &NameMap<Service>,
) -> Result<(), ManifestError>
    ensures ok { OnOk result (flat_map (service_faults (keys files.now)) (entries services.now) ≡ []) }
    ensures err { IfErr result (λ e. e ≢ Memory
        → first_of (flat_map (service_faults (keys files.now)) (entries services.now)) ≡ Some e) }
{
    for (name, service) in services.as_slice() {
        check_service(files, name, service)?;
    }
    Ok(())
}
