//! The surroundings, by the variables of the environment.
ghost use Rattle.std.specs.Prelude.{◌≡◌, codes, IfOk};
ghost use Rattle.git_places.specs.Variables as words;

use crate::surroundings::Surroundings;
use gitbase_core::{Bytes, OutOfMemory, PathText};
use std::alloc::Global;
use std::marker::Model;

/// A variable of the environment. Contracts see a record of both texts.
#[derive(Debug, Drop)]
pub struct Variable {
    pub name: Bytes,
    pub value: Bytes,
}

impl Model for Variable {
    ghost use Rattle.git_places.specs.Variables as words;

    ghost Value = { words.EnvironmentVariable };

    ghost view = { λ variable. record { name = variable.name; value = variable.value } };
}

/// A variable that names a place of the repository.
fn is_repository_place_variable(name: &[u8]) -> bool
    ensures { result ≡ words.is_repository_place_variable name.now }
{
    name == b"GIT_DIR".as_slice()
        || name == b"GIT_WORK_TREE".as_slice()
        || name == b"GIT_INDEX_FILE".as_slice()
        || name == b"GIT_COMMON_DIR".as_slice()
        || name == b"GIT_OBJECT_DIRECTORY".as_slice()
}

/// One that says how path specs are read.
fn is_path_spec_variable(name: &[u8]) -> bool
    ensures { result ≡ words.is_path_spec_variable name.now }
{
    name == b"GIT_LITERAL_PATHSPECS".as_slice()
        || name == b"GIT_GLOB_PATHSPECS".as_slice()
        || name == b"GIT_NOGLOB_PATHSPECS".as_slice()
        || name == b"GIT_ICASE_PATHSPECS".as_slice()
}

/// One that has a configuration, or the number of those that others have.
fn is_configuration_variable(variable: &Variable) -> bool
    ensures { result ≡ words.is_configuration_variable variable.now }
{
    let name = variable.name.as_bytes();
    name == b"GIT_CONFIG".as_slice()
        || name == b"GIT_CONFIG_PARAMETERS".as_slice()
        || name == b"GIT_CONFIG_COUNT".as_slice() && variable.value.as_bytes() != b"0".as_slice()
}

fn is_place_path_spec_or_config_variable(variable: &Variable) -> bool
    ensures { result ≡ words.is_place_path_spec_or_config_variable variable.now }
{
    let name = variable.name.as_bytes();
    is_repository_place_variable(name)
        || is_path_spec_variable(name)
        || is_configuration_variable(variable)
}

/// The value of the first variable of a name.
fn value_of_variable(
    alloc: Global,
    variables: &[Variable],
    name: &[u8],
) -> Result<Option<Bytes>, OutOfMemory>
    ensures { IfOk result (λ value. value ≡ words.value_of_variable name.now variables.now) }
{
    match variables
        .iter()
        .find(|variable| variable.name.as_bytes() == name)
    {
        Some(variable) => Ok(Some(Bytes::from_slice(alloc, variable.value.as_bytes())?)),
        None => Ok(None),
    }
}

/// The name of the first variable that points git elsewhere.
fn name_of_first_redirecting_variable(
    alloc: Global,
    variables: &[Variable],
) -> Result<Option<Bytes>, OutOfMemory>
    ensures { IfOk result (λ name. name ≡ words.name_of_first_redirecting_variable variables.now) }
{
    match variables
        .iter()
        .find(|variable| is_place_path_spec_or_config_variable(variable))
    {
        Some(variable) => Ok(Some(Bytes::from_slice(alloc, variable.name.as_bytes())?)),
        None => Ok(None),
    }
}

/// What git heeds of the variables of the environment, in the directory `current`, an absolute path
/// without links.
///
/// Of two variables of one name the first counts. These point git elsewhere: `GIT_DIR`,
/// `GIT_WORK_TREE`, `GIT_INDEX_FILE`, `GIT_COMMON_DIR`, `GIT_OBJECT_DIRECTORY`, `GIT_CONFIG`,
/// `GIT_CONFIG_PARAMETERS`, `GIT_CONFIG_COUNT` (but `0`), and the four `GIT_*_PATHSPECS`; see
/// git(1), git-config(1).
pub fn surroundings_of_variables(
    alloc: Global,
    current: &[u8],
    variables: &[Variable],
) -> Result<Surroundings, OutOfMemory>
    ensures { IfOk result (λ around. around ≡ words.surroundings_of_variables current.now
        variables.now) }
{
    let directory = PathText::from_bytes(alloc, current)?;
    let home = value_of_variable(alloc, variables, b"HOME")?;
    let config_home = value_of_variable(alloc, variables, b"XDG_CONFIG_HOME")?;
    let config_global = value_of_variable(alloc, variables, b"GIT_CONFIG_GLOBAL")?;
    let config_system = value_of_variable(alloc, variables, b"GIT_CONFIG_SYSTEM")?;
    let no_system = value_of_variable(alloc, variables, b"GIT_CONFIG_NOSYSTEM")?;
    let ceilings = value_of_variable(alloc, variables, b"GIT_CEILING_DIRECTORIES")?;
    let across = value_of_variable(alloc, variables, b"GIT_DISCOVERY_ACROSS_FILESYSTEM")?;
    let sudo_user = value_of_variable(alloc, variables, b"SUDO_UID")?;
    let elsewhere = name_of_first_redirecting_variable(alloc, variables)?;
    Ok(Surroundings {
        directory,
        home,
        config_home,
        config_global,
        config_system,
        no_system,
        ceilings,
        across,
        sudo_user,
        elsewhere,
    })
}
