//! No file is lost by a slip: a command refuses to write a file that it uses otherwise too.
ghost use Rattle.std.specs.Prelude.{◌≡◌, IfSome, None, false, map, option_map, true};
ghost use Rattle.sdv_program.specs.Uses.{AreApart, Clashes, IsApartFrom, IsSameFile, IsUnused, IsUsed, IsWrittenOver, StaysOff, file_of, run_roles, seen_role};
ghost use Rattle.sdv_program.specs.Requests.{names_of};

use crate::file::Store;
use crate::line::RunFiles;

/// What a command does with a file, which may be named or not.
#[derive(Clone, Copy)]
pub enum Role<'a> {
    Reads(Option<&'a str>),
    /// The file is read, and written in place.
    Changes(Option<&'a str>),
    /// The file is made or emptied, and then written.
    Writes(Option<&'a str>),
}

impl<'a> RunFiles<'a> {
    /// What a run does with its files, in the order in which it uses them. The image is that of this file, if it is no new one.
    pub fn roles(&self, image: Option<&'a str>) -> [Role<'a>; 8]
        ensures { map seen_role result
            ≡ run_roles (names_of self.now) (option_map (λ file. file.now) image.entry) }
    {
        [
            Role::Reads(Some(self.script)),
            Role::Reads(Some(self.certificate)),
            Role::Reads(Some(self.card)),
            Role::Changes(image),
            Role::Reads(self.schedule),
            Role::Reads(self.input),
            Role::Writes(self.output),
            Role::Writes(self.registers),
        ]
    }
}

/// The first file that is written, and that has one of the roles before that too.
pub fn clash<'a, S: Store>(files: &S, roles: &[Role<'a>]) -> Option<&'a str>
    ensures clashes { IfSome result (λ file. Clashes (S.known files.now) (map seen_role roles.now) file.now) }
    ensures apart { result ≡ None → AreApart (S.known files.now) (map seen_role roles.now) }
{
    for place in 0..roles.len() {
        let over = written_over(files, &roles[..place], roles[place]);
        if over.is_some() {
            return over;
        }
    }
    None
}

/// The file of a role that is written, where it has one of the other roles too.
fn written_over<'a, S: Store>(files: &S, others: &[Role<'a>], role: Role<'a>) -> Option<&'a str>
    ensures over { IfSome result
        (λ file. IsWrittenOver (S.known files.now) (map seen_role others.now) (seen_role role.entry) file.now) }
    ensures off { result ≡ None → StaysOff (S.known files.now) (map seen_role others.now) (seen_role role.entry) }
{
    match role {
        Role::Writes(Some(file)) if is_used(files, others, file) => Some(file),
        _ => None,
    }
}

/// One of the roles is for this file.
fn is_used<S: Store>(files: &S, roles: &[Role<'_>], file: &str) -> bool
    ensures used { result ≡ true → IsUsed (S.known files.now) (map seen_role roles.now) file.now }
    ensures unused { result ≡ false → IsUnused (S.known files.now) (map seen_role roles.now) file.now }
{
    match roles {
        [] => false,
        [role, rest @ ..] => is_file_of(files, *role, file) | is_used(files, rest, file),
    }
}

/// The role is for this file.
fn is_file_of<S: Store>(files: &S, role: Role<'_>, file: &str) -> bool
    ensures same { result ≡ true → IsSameFile (S.known files.now) (file_of (seen_role role.entry)) file.now }
    ensures apart { result ≡ false → IsApartFrom (S.known files.now) (file_of (seen_role role.entry)) file.now }
{
    match role {
        Role::Reads(Some(other)) | Role::Changes(Some(other)) | Role::Writes(Some(other)) => {
            files.is_same(other, file)
        }
        Role::Reads(None) | Role::Changes(None) | Role::Writes(None) => false,
    }
}
