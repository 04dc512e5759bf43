//! How the words of the program are spelled.

/// The commands with their words, for those who read them at a terminal.
pub const PAGE: &str = "usage: settings COMMAND, in the folder of the host

  init --version V     begins a store at the version V, as in 1.5.2
  serve [--boot] [--slice N] [--while-idle] [--connections N] [--quiet]
                       answers requests at the socket api.sock: with --boot all is applied
                       first, with --slice at most N turns of the job follow each request,
                       with --while-idle turns are made while no client is there too, with
                       --connections it ends after N of them, and with --quiet no line of
                       the log is written to standard error
  set KEY=JSON ...     sets settings, as in set 'settings.motd=\"hi\"', and applies them
  get [KEY ...]        prints what is set at the keys and below them, or all settings
  apply [--all]        writes the files and restarts the services that are owed, or all
  verify               tells of each configuration file whether it is what its template gives
  check [--store]      tells of each configuration file whether it is covered, and with --store
                       whether the store is sound too; it writes nothing
  migrate --to V       moves the store to the version V
  prune                removes the files of other versions
  generate             asks the image's generators for settings that have no value
  user-data PATH       sets what the file of user data at the path says
  dump                 prints what the store holds and its version
  restore PATH         begins a store with what the file of a dump at the path says
  forget KEY ...       takes away what is set and what is pending at the keys
  load N               makes a generated run of N settings in memory, and prints its counts
";
