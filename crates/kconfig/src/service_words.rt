//! The services that a native method may call (OSEK/VDX OS 2.2.3, section 13).

ghost use Rattle.std.specs.Prelude.{◌≡◌};
ghost use Rattle.kconfig.specs.Methods.{service_word, is_bare, is_set_event};

use text_words::is_word;

/// The name of a service.
#[derive(Clone, Copy, Debug, PartialEq, Eq)]
pub enum ServiceWord {
    ActivateTask,
    TerminateTask,
    ChainTask,
    Schedule,
    GetResource,
    ReleaseResource,
    SetEvent,
    ClearEvent,
    GetEvent,
    WaitEvent,
    SetRelAlarm,
    SetAbsAlarm,
    CancelAlarm,
    GetAlarm,
}

/// The service of this name.
pub fn service_word(word: &[u8]) -> Option<ServiceWord>
    ensures { result ≡ service_word word.now }
{
    if is_word(word, "ActivateTask") {
        Some(ServiceWord::ActivateTask)
    } else if is_word(word, "TerminateTask") {
        Some(ServiceWord::TerminateTask)
    } else if is_word(word, "ChainTask") {
        Some(ServiceWord::ChainTask)
    } else if is_word(word, "Schedule") {
        Some(ServiceWord::Schedule)
    } else if is_word(word, "GetResource") {
        Some(ServiceWord::GetResource)
    } else if is_word(word, "ReleaseResource") {
        Some(ServiceWord::ReleaseResource)
    } else if is_word(word, "SetEvent") {
        Some(ServiceWord::SetEvent)
    } else if is_word(word, "ClearEvent") {
        Some(ServiceWord::ClearEvent)
    } else if is_word(word, "GetEvent") {
        Some(ServiceWord::GetEvent)
    } else if is_word(word, "WaitEvent") {
        Some(ServiceWord::WaitEvent)
    } else if is_word(word, "SetRelAlarm") {
        Some(ServiceWord::SetRelAlarm)
    } else if is_word(word, "SetAbsAlarm") {
        Some(ServiceWord::SetAbsAlarm)
    } else if is_word(word, "CancelAlarm") {
        Some(ServiceWord::CancelAlarm)
    } else if is_word(word, "GetAlarm") {
        Some(ServiceWord::GetAlarm)
    } else {
        None
    }
}
