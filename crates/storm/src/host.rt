//! The host that storms go over.
use crate::running::run_step;
use disk_memory::MemoryDisk;
use machine_replies::Host;
use outside::{Disk, Path};
use release_file::Release;
use std::alloc::Global;
use storm_machine::{Replay, Trouble, differs};
use storm_steps::{DUMP, Step};
use version_links::Version;

// The files of the image.
const FILES: &[(&str, &str)] = &[
    (
        "image/model.toml",
        r#"[types]
"settings.motd" = "line"
"settings.ntp.time-servers" = "list line"
"settings.kernel.sysctl.*" = "line"
[settings]
motd = "Welcome"
ntp.time-servers = ["a.example", "b.example"]
[services.motd]
configuration-files = ["motd"]
restart-commands = ["motd-reload"]
[services.chronyd]
configuration-files = ["chrony"]
restart-commands = ["systemctl try-restart chronyd", "chronyc burst"]
[services.sysctl]
configuration-files = ["sysctl"]
restart-commands = ["sysctl --system"]
[configuration-files.motd]
path = "/etc/motd"
template-path = "motd"
[configuration-files.chrony]
path = "/etc/chrony.conf"
template-path = "chrony"
[configuration-files.sysctl]
path = "/etc/sysctl"
template-path = "sysctl"
[metadata.settings.motd]
affected-services = ["motd"]
[metadata.settings.ntp]
affected-services = ["chronyd"]
[metadata.settings.kernel.sysctl]
affected-services = ["sysctl"]
"#,
    ),
    ("image/templates/motd", "{{settings.motd}}\n"),
    (
        "image/templates/chrony",
        "{{#each settings.ntp.time-servers}}\npool {{this}} iburst\n{{/each}}\n",
    ),
    (
        "image/templates/sysctl",
        "{{#if settings.kernel.sysctl}}\n{{#each settings.kernel.sysctl}}\n{{@key}}={{this}}\n{{/each}}\n{{/if}}\n",
    ),
    ("image/release.toml", RELEASE),
];

// It leads from 1.5.2 to 1.5.3 and to 1.6.0.
const RELEASE: &str = r#"[migrations]
"(1.5.2, 1.5.3)" = ["hello"]
"(1.5.3, 1.6.0)" = ["sysctl", "weak"]
[migration.hello]
kind = "replace-string"
setting = "settings.motd"
old = "Welcome"
new = "Hello"
[migration.sysctl]
kind = "add-prefixes"
prefixes = ["settings.kernel.sysctl"]
[migration.weak]
kind = "remove-weak"
"#;

// The version of a new store.
const FIRST: Version = Version {
    major: 1,
    minor: 5,
    patch: 2,
};

fn put(alloc: Global, disk: &mut MemoryDisk, path: &str, bytes: &[u8]) -> Result<(), Trouble> {
    let path = Path::read(alloc, path.as_bytes())
        .ok()
        .ok_or(Trouble::Memory)?;
    disk.replace(&path, bytes).ok().ok_or(Trouble::Memory)
}

// A disk with the files of the image, and no store.
fn empty_disk(alloc: Global) -> Result<MemoryDisk, Trouble> {
    let mut disk = MemoryDisk::new(alloc)?;
    for (path, bytes) in FILES {
        put(alloc, &mut disk, path, bytes.as_bytes())?;
    }
    Ok(disk.crash(&[])?)
}

/// A disk with the files of the image and this dump, and no store.
pub fn disk_with_dump(alloc: Global, dump: &[u8]) -> Result<MemoryDisk, Trouble> {
    let mut disk = empty_disk(alloc)?;
    put(alloc, &mut disk, DUMP, dump)?;
    Ok(disk.crash(&[])?)
}

// The host of the disk, on which `init` begins a store.
fn replay_on(alloc: Global, disk: &mut MemoryDisk) -> Result<Replay, Trouble> {
    if run_step(alloc, disk, &Step::begin(alloc)?)?.status != 0 {
        return Err(differs(alloc, "no store begins"));
    }
    let Ok(release) = Release::read(alloc, RELEASE.as_bytes()) else {
        return Err(differs(alloc, "the release is none"));
    };
    match Host::read(alloc, disk, FIRST) {
        Ok(host) => Ok(Replay::of(alloc, Box::new(alloc, host)?, release)),
        Err(_) => Err(differs(alloc, "the image is none")),
    }
}

/// The host, and its disk with a store that has just begun.
pub fn begun(alloc: Global) -> Result<(Replay, MemoryDisk), Trouble> {
    let mut disk = empty_disk(alloc)?;
    let replay = replay_on(alloc, &mut disk)?;
    Ok((replay, disk))
}

/// The store of the host begins again.
pub fn begin_again(alloc: Global, host: &mut Host) -> Result<(), Trouble> {
    host.begin(alloc, FIRST);
    Ok(host.keep(alloc)?)
}
