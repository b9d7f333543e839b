ghost use Rattle.std.specs.Prelude.{◌≡◌, ◌≢◌, Err, IfErr, IfOk, IsTrue, Some};
ghost use Rattle.std.specs.Option.{option_copied, option_map};
ghost use Rattle.cell_value.specs.FaultCount.{Rose};
ghost use Rattle.conversation.specs.Conversation.{Counts};
ghost use Rattle.commands.specs.Users.{HasUsers, IsUsersFault, after_reading, finish_of_load, finish_of_users};

use crate::finish::Finish;
use conversation::Ended;
use desk::LoadFault;
use folder::Folder;
use sheets_http::Users;
use std::alloc::Global;
use users_file::{UsersFault, read_users};

/// The users that a command serves: those of the file of that name, or anyone, where its words name none.
pub(crate) fn users_of<F: Folder>(
    alloc: Global,
    folder: &mut F,
    name: Option<&str>,
) -> Result<Users, Finish>
    ensures users { IfOk result (λ users. HasUsers (F.shown folder.old) (option_copied name.entry) users) }
    ensures fault { IfErr result (λ finish. IsUsersFault (F.shown folder.old) (option_copied name.entry) finish) }
    ensures shown { F.shown folder.new ≡ option_map (after_reading (option_copied name.entry)) (F.shown folder.old) }
    ensures cause { result ≡ Err (Finish.Served Ended.ReadFault)
        → Rose (F.failures folder.old) (F.failures folder.new) }
    ensures steady { IsTrue (F.steady folder.old) → result ≢ Err (Finish.Served Ended.ReadFault) }
    ensures counts { Counts (F.failures folder.old) (F.failures folder.new) (F.steady folder.old)
        (F.steady folder.new) }
    ensures keepers { F.keeper_failures folder.new ≡ F.keeper_failures folder.old }
{
    match name {
        None => Ok(Users::anyone()),
        Some(name) => read_named(alloc, folder, name),
    }
}

/// The users of the file of that name.
fn read_named<F: Folder>(alloc: Global, folder: &mut F, name: &str) -> Result<Users, Finish>
    ensures users { IfOk result (λ users. HasUsers (F.shown folder.old) (Some name.now) users) }
    ensures fault { IfErr result (λ finish. IsUsersFault (F.shown folder.old) (Some name.now) finish) }
    ensures shown { F.shown folder.new ≡ option_map (after_reading (Some name.now)) (F.shown folder.old) }
    ensures cause { result ≡ Err (Finish.Served Ended.ReadFault)
        → Rose (F.failures folder.old) (F.failures folder.new) }
    ensures steady { IsTrue (F.steady folder.old) → result ≢ Err (Finish.Served Ended.ReadFault) }
    ensures counts { Counts (F.failures folder.old) (F.failures folder.new) (F.steady folder.old)
        (F.steady folder.new) }
    ensures keepers { F.keeper_failures folder.new ≡ F.keeper_failures folder.old }
{
    match folder.open(name) {
        Err(fault) => Err(finish_of_load(fault)),
        Ok(mut file) => {
            let read = read_users(alloc, &mut file);
            folder.file_back(file);
            match read {
                Ok(pairs) => Ok(Users::of(pairs)),
                Err(fault) => Err(finish_of_users(fault)),
            }
        }
    }
}

/// How a command ends that a folder gave nothing, for that fault.
pub(crate) fn finish_of_load(fault: LoadFault) -> Finish
    ensures { result ≡ finish_of_load fault }
{
    Finish::Served(match fault {
        LoadFault::Failed => Ended::ReadFault,
        LoadFault::NoMemory => Ended::NoMemory,
    })
}

/// How a command ends whose file of users has that fault.
fn finish_of_users(fault: UsersFault) -> Finish
    ensures { result ≡ finish_of_users fault }
{
    match fault {
        UsersFault::Failed => Finish::Served(Ended::ReadFault),
        UsersFault::Long => Finish::UsersLong,
        UsersFault::Bad(row) => Finish::BadUsers(row),
        UsersFault::NoMemory => Finish::Served(Ended::NoMemory),
    }
}
