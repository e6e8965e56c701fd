// The four words of a configuration: whether they are one, and what they then say. Defined in specs/Configs.antt; it rests on `script_fields`.
#![tactic(auto)]

ghost use Rattle.std.specs.Prelude.{◌≡◌};
ghost use Rattle.script_fields_config.specs.Configs.{is_config, config_of};

use channel::L2capChannelConfig;
use script_fields::{is_policy, is_setting, policy_of, setting_of};

pub fn is_config(mtu: &[u8], mps: &[u8], policy: &[u8], credits: &[u8]) -> bool
    ensures { result ≡ is_config mtu.now mps.now policy.now credits.now }
{
    is_setting(mtu) & is_setting(mps) & is_policy(policy) & is_setting(credits)
}

pub fn config_of(mtu: &[u8], mps: &[u8], policy: &[u8], credits: &[u8]) -> L2capChannelConfig
    ensures { result ≡ config_of mtu.now mps.now policy.now credits.now }
{
    let a = setting_of(mtu);
    let b = setting_of(mps);
    let p = policy_of(policy);
    let k = setting_of(credits);
    L2capChannelConfig {
        mtu: a,
        mps: b,
        policy: p,
        credits: k,
    }
}
