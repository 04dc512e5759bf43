//! Manifests.
ghost use Rattle.std.specs.Prelude.{◌≡◌, ◌≢◌, ◌<◌, ◌++◌, [], ◌∷◌, Some, All, IsTrue, IsSome, IfOk, IfErr, OnOk, length, map};
ghost use Rattle.std.specs.FinMap as finite;
ghost use Rattle.std.specs.List.{flat_map};
ghost use Rattle.std.specs.Option.{option_copied};
ghost use Rattle.std.specs.Str.{bytes_eq};
ghost use Rattle.indexmap.specs.IndexSet.{insert_all};
ghost use Rattle.metadata_links.specs.Commands.{seen, commands_from, listing};
ghost use Rattle.metadata_links.specs.Linked.{have_words, have_rows};

use crate::affected_lists::lists_in;
use crate::command::{Command, words_in};
use crate::file_row::FileRow;
use crate::file_rows::files_in;
use crate::firsts::Firsts;
use crate::index::{Index, Steps};
use crate::manifest_error::ManifestError;
use crate::name_map::NameMap;
use crate::paths::check_paths;
use crate::service::Service;
use crate::service_links::check_services;
use crate::services::services_in;
use key_names::{Key, Text};
use settings_tree::{Content, Owed};
use std::alloc::{AllocError, Global};

/// The services of a content, the files that they list, and the index of its metadata
/// `affected-services`. It keeps its allocator.
#[derive(Drop)]
pub struct Manifest {
    services: NameMap<Service>,
    files: NameMap<FileRow>,
    index: Index,
    // Each command has a word, and each file that a service lists is there.
    pub ghost worded: { IsTrue (have_words services) },
    pub ghost filed: { IsTrue (have_rows files services) },
}

// Puts the commands at the end, split into words.
fn push_commands(commands: &mut Vec<Command>, name: &Text, texts: &[Text]) -> Result<(), AllocError>
    ensures { OnOk result (map seen commands.new.items
        ≡ map seen commands.old.items ++ commands_from name.now 0 texts.now) }
{
    let alloc = *commands.allocator();
    for (index, text) in texts.iter().enumerate() {
        commands.push(Command {
            service: name.copy()?,
            index,
            words: words_in(alloc, text.as_str())?,
        })?;
    }
    Ok(())
}

// Puts the service at the end, where it lists the file.
fn push_listing(
    names: &mut Vec<Text>,
    name: &Text,
    service: &Service,
    file: &[u8],
) -> Result<(), AllocError>
    ensures { OnOk result (names.new.items
        ≡ names.old.items ++ listing file.now ((name.now, service.now) ∷ [])) }
{
    if service.lists(file) {
        names.push(name.copy()?)?;
    }
    Ok(())
}

// The services that list the file.
fn listing(
    alloc: Global,
    services: &[(Text, Service)],
    file: &[u8],
) -> Result<Vec<Text>, AllocError>
    ensures { IfOk result (λ names. names.items ≡ listing file.now services.now) }
{
    let mut names = Vec::new(alloc);
    for (name, service) in services {
        push_listing(&mut names, name, service, file)?;
    }
    Ok(names)
}

impl Manifest {
    ghost use Rattle.metadata_links.specs.Faults.{faults, first_of};
    ghost use Rattle.metadata_links.specs.Firsts.{firsts};
    ghost use Rattle.metadata_links.specs.Links.{affected, all_files, listed, files_of, commands_in, commands_of, service_named, services_of};
    ghost use Rattle.metadata_links.specs.Manifest.{IsManifestOf};
    ghost use Rattle.metadata_links.specs.Nearest.{near, listed_below};
    ghost use Rattle.metadata_links.specs.declared.manifest_error.ManifestError.TheVariants.{Memory};

    /// The manifest of the content. A service is there where a list of texts is at
    /// `services.NAME.configuration-files` or `services.NAME.restart-commands`; the other list may be
    /// missing and is then empty. A file is there where a text is at
    /// `configuration-files.NAME.path` or `configuration-files.NAME.template-path`. Values of other
    /// keys and forms, which the built-in types refuse, count for nothing.
    ///
    /// The first fault is answered, in five groups, names and keys rising in each. For each file
    /// `Incomplete`, then `BadPath`. Over pairs of files, by the lesser name and then the greater,
    /// `SamePath`. Over the same pairs `NestedPath`. For each service `UnknownFile`, then
    /// `EmptyCommand`, for the first such file or command in its list. By key `BadMeta`, then
    /// `UnknownService`, for the first such service in its list. `Memory` alone may come at any place.
    ///
    /// It takes a logarithmic step for each value that it reads, and time quadratic in the number of
    /// files only where it answers `SamePath` or `NestedPath`.
    pub fn of(alloc: Global, content: &Content) -> Result<Manifest, ManifestError>
        ensures ok { IfOk result (IsManifestOf content.now) }
        ensures fault { IfErr result (λ e. e ≢ Memory → first_of (faults content.now) ≡ Some e) }
    {
        let files = files_in(alloc, content)?;
        check_paths(alloc, files.as_slice())?;
        let services = services_in(alloc, content)?;
        check_services(&files, &services)?;
        let index = lists_in(alloc, content, Some(&services))?;
        Ok(Manifest {
            services,
            files,
            index,
        })
    }

    /// The allocator that the manifest keeps.
    pub fn allocator(&self) -> Global {
        self.index.allocator()
    }

    /// The `affected-services` of the longest prefix of the key that has them, else the empty list. It
    /// takes a logarithmic step for each prefix, and no memory.
    pub fn nearest(&self, key: &Key) -> &[Text]
        ensures { result.now ≡ near self.now.index key.now }
    {
        let mut probes = Steps::new();
        self.index.nearest(key, &mut probes)
    }

    /// The services that the owed keys affect, rising: those in the nearest lists of the keys, and
    /// every service where all is owed. It goes by the index. The only error is out of memory.
    pub fn affected(&self, owed: &Owed) -> Result<Vec<Text>, AllocError>
        ensures { IfOk result (λ names. names.items ≡ affected self.now owed.now) }
    {
        match owed {
            Owed::All => self.services.names(),
            Owed::Keys(keys) => {
                let mut probes = Steps::new();
                self.index.affected(keys, &mut probes)
            }
        }
    }

    // Adds the files that the service lists.
    fn add_listed(&self, files: &mut Firsts, name: &Text) -> Result<(), AllocError>
        ensures { OnOk result (files.new
            ≡ insert_all bytes_eq files.old (service_named self.now name.now).files) }
    {
        match self.services.get(name.as_str().as_bytes()) {
            Some(service) => files.add_all(service.files.as_slice()),
            None => Ok(()),
        }
    }

    // The files that the services list, each once.
    fn listed(&self, names: &[Text]) -> Result<Firsts, AllocError>
        ensures { IfOk result (λ files. files ≡ firsts (listed self.now names.now)) }
    {
        let mut files = Firsts::new(self.allocator());
        for name in names {
            self.add_listed(&mut files, name)?;
        }
        Ok(files)
    }

    // Adds the names of all files, where all is owed.
    fn add_all_files(&self, files: &mut Firsts, owed: &Owed) -> Result<(), AllocError>
        ensures { OnOk result (files.new ≡ insert_all bytes_eq files.old (all_files self.now owed.now)) }
    {
        match owed {
            Owed::All => files.add_all(&self.files.names()?),
            Owed::Keys(_) => Ok(()),
        }
    }

    /// The files of the affected services, services by name and files as listed, first occurrences
    /// alone. Where all is owed, the files that no service lists follow by name. Each of them is a file
    /// of the manifest. The only error is out of memory.
    pub fn files_of(&self, owed: &Owed) -> Result<Vec<Text>, AllocError>
        ensures files { IfOk result (λ files. files.items ≡ files_of self.now owed.now) }
        ensures known { IfOk result (λ files. All (λ file. IsSome (finite.get self.now.files file)) files.items) }
    {
        let names = self.affected(owed)?;
        let mut files = self.listed(&names)?;
        self.add_all_files(&mut files, owed)?;
        files.into_vec()
    }

    // Puts the commands of the service at the end.
    fn push_named(&self, commands: &mut Vec<Command>, name: &Text) -> Result<(), AllocError>
        ensures { OnOk result (map seen commands.new.items
            ≡ map seen commands.old.items ++ commands_in name.now (service_named self.now name.now)) }
    {
        match self.services.get(name.as_str().as_bytes()) {
            Some(service) => push_commands(commands, name, service.commands.as_slice()),
            None => Ok(()),
        }
    }

    // The commands of the services.
    fn commands_named(&self, names: &[Text]) -> Result<Vec<Command>, AllocError>
        ensures { IfOk result (λ commands. map seen commands.items
            ≡ flat_map (λ name. commands_in name (service_named self.now name)) names.now) }
    {
        let mut commands = Vec::new(self.allocator());
        for name in names {
            self.push_named(&mut commands, name)?;
        }
        Ok(commands)
    }

    /// The restart commands of the affected services, services by name and commands as listed, each
    /// split at runs of spaces, into a word at least. The only error is out of memory.
    pub fn commands_of(&self, owed: &Owed) -> Result<Vec<Command>, AllocError>
        ensures commands { IfOk result (λ commands. map seen commands.items ≡ commands_of self.now owed.now) }
        ensures worded { IfOk result (λ commands. All (λ c. 0 < length c.words.items) commands.items) }
    {
        let names = self.affected(owed)?;
        self.commands_named(&names)
    }

    /// The file with this name, None exactly where the manifest has none. It is logarithmic and takes
    /// no memory.
    pub fn file(&self, name: &[u8]) -> Option<&FileRow>
        ensures { option_copied result ≡ finite.get self.now.files name.now }
    {
        self.files.get(name)
    }

    /// The names of all files, rising. The only error is out of memory.
    pub fn file_names(&self) -> Result<Vec<Text>, AllocError>
        ensures { IfOk result (λ names. names.items ≡ finite.keys self.now.files) }
    {
        self.files.names()
    }

    /// The services that list the file, rising. It takes one pass over the services' lists of files.
    /// The only error is out of memory.
    pub fn services_of(&self, file: &[u8]) -> Result<Vec<Text>, AllocError>
        ensures { IfOk result (λ names. names.items ≡ services_of self.now file.now) }
    {
        listing(self.allocator(), self.services.as_slice(), file)
    }

    /// The keys that have `affected-services`, are longer than the path and begin with it, rising.
    /// `nearest` of such a key is its own list. The only error is out of memory.
    pub fn listed_below(&self, path: &Key) -> Result<Vec<Key>, AllocError>
        ensures { IfOk result (λ keys. keys.items ≡ listed_below self.now.index path.now) }
    {
        self.index.listed_below(path)
    }

    /// The index of the content that the manifest was made of. It takes no memory.
    pub fn index(&self) -> &Index
        ensures { result.now ≡ self.now.index }
    {
        &self.index
    }
}
