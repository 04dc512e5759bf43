//! How the words of the program are spelled.

/// The words, for those who read them at a terminal.
pub const PAGE: &str = "usage: settingsctl METHOD TARGET [BODY], in the folder of a running server
       settingsctl [-C DIR] VERB ..

  get [KEY ..]            prints the settings: all, or those at the keys and below them
  set KEY=JSON ..         sets values at once, applies them, and waits for the job
  unset KEY ..            takes settings away, in the same way
  edit TX KEY=JSON ..     makes values pending in a transaction
  pending [TX]            prints what is pending in a transaction
  drop TX                 ends a transaction without a commit
  transactions            prints the names of the transactions
  commit TX               commits a transaction, applies it, and waits for the job
  plan [TX]               prints what apply would do, now or after the commit of a transaction
  plan KEY=JSON ..        prints what it would do after these changes, which aren't made
  show FILE [TX]          prints a file as it would be written
  apply [--all]           writes the files and restarts the services that are owed, or all, and waits for the job
  wait [SECONDS]          waits for the job, by default for 300 seconds
  status                  prints the version, the job, what is owed and what is pending
  verify                  prints for each file whether it is as it should be

  With --text before the first KEY=.. what is after the = is a text as it is: set --text settings.motd=hi

  METHOD TARGET asks the server at the socket api.sock one question, and prints its answer, as in

  settingsctl GET /settings
  settingsctl PATCH /settings '{\"motd\":\"hi\"}'
  settingsctl POST /tx/commit_and_apply
  settingsctl GET /job
";
