ghost use Rattle.std.specs.Prelude.{◌≡◌, ◌<◌, ◌+◌, ◌++◌, ◌∷◌, [], length, None, Some, OnOk, nat_eq, if◌then◌else◌};
ghost use Rattle.world_rules.specs.Part.{with_config};
ghost use Rattle.plain_part.specs.Configs.{config_at, put_config};
ghost use Rattle.plain_part.specs.Shown.{shown_part};

use crate::PlainPart;
use host_port::Limits;
use memory_refusal::NoMemory;

/// The limits of a config, if it is there.
pub(crate) fn config_at(configs: &[Option<Limits>], number: u64) -> Option<Limits>
    ensures { result ≡ config_at configs.now number }
{
    match configs.get(number as usize) {
        Some(config) => *config,
        None => None,
    }
}

/// A new config with these limits, of the next number.
fn create_config(configs: &mut Vec<Option<Limits>>, limits: Limits) -> Result<(), NoMemory>
    ensures put { OnOk result (config_at configs.new.items ≡
        put_config (length configs.old.items) (Some limits) (config_at configs.old.items)) }
    ensures next { OnOk result (length configs.new.items ≡ length configs.old.items + 1) }
{
    configs.push(Some(limits))?;
    Ok(())
}

/// A config is no more.
fn drop_config(configs: &mut Vec<Option<Limits>>, number: u64)
    ensures put { config_at configs.new.items ≡ put_config number None (config_at configs.old.items) }
    ensures next { length configs.new.items ≡ length configs.old.items }
{
    if number < configs.len() as u64 {
        set_config(configs, number, None);
    }
}

/// Other limits for a config that has its place.
fn set_config(configs: &mut Vec<Option<Limits>>, number: u64, limits: Option<Limits>)
    requires { number < length configs.old.items }
    ensures put { config_at configs.new.items ≡ put_config number limits (config_at configs.old.items) }
    ensures next { length configs.new.items ≡ length configs.old.items }
{
    configs[number as usize] = limits;
}

impl PlainPart {
    /// A new config with these limits, of the next number.
    pub(crate) fn add_config(&mut self, limits: Limits) -> Result<(), NoMemory>
        ensures { OnOk result (shown_part self.new ≡
            record (with_config (shown_part self.old).next_config (Some limits) (shown_part self.old)) {
              next_config = (shown_part self.old).next_config + 1;
            }) }
    {
        create_config(&mut self.configs, limits)?;
        Ok(())
    }

    /// Other limits for a config that has its place.
    pub(crate) fn change_config(&mut self, number: u64, limits: Limits)
        requires { number < length self.old.configs.items }
        ensures { shown_part self.new ≡ with_config number (Some limits) (shown_part self.old) }
    {
        set_config(&mut self.configs, number, Some(limits));
    }

    /// The config is no more.
    pub(crate) fn remove_config(&mut self, number: u64)
        ensures { shown_part self.new ≡ with_config number None (shown_part self.old) }
    {
        drop_config(&mut self.configs, number);
    }
}
