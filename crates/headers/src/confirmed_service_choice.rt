// The confirmed service choices; there is none above the last. The oracle holds the names to the given Rust's enum.
// Constants and no enum: a header holds any byte, and `encode` refuses one above the last by 11, so no type may rule it out.
ghost use Rattle.std.specs.Prelude.{◌≡◌, Ok, Err, ltb};
ghost use Rattle.types.specs.Choice.{if};
ghost use Rattle.types.specs.declared.refusal.Refusal.TheVariants.{ServiceChoiceTooLarge};
ghost use Rattle.headers.specs.Choice.{service_choices};

use types::Refusal;

pub const ACKNOWLEDGE_ALARM: u8 = 0;

pub const COV_NOTIFICATION: u8 = 1;

pub const EVENT_NOTIFICATION: u8 = 2;

pub const GET_ALARM_SUMMARY: u8 = 3;

pub const GET_ENROLLMENT_SUMMARY: u8 = 4;

pub const SUBSCRIBE_COV: u8 = 5;

pub const ATOMIC_READ_FILE: u8 = 6;

pub const ATOMIC_WRITE_FILE: u8 = 7;

pub const ADD_LIST_ELEMENT: u8 = 8;

pub const REMOVE_LIST_ELEMENT: u8 = 9;

pub const CREATE_OBJECT: u8 = 10;

pub const DELETE_OBJECT: u8 = 11;

pub const READ_PROPERTY: u8 = 12;

pub const READ_PROP_CONDITIONAL: u8 = 13;

pub const READ_PROP_MULTIPLE: u8 = 14;

pub const WRITE_PROPERTY: u8 = 15;

pub const WRITE_PROP_MULTIPLE: u8 = 16;

pub const DEVICE_COMMUNICATION_CONTROL: u8 = 17;

pub const PRIVATE_TRANSFER: u8 = 18;

pub const TEXT_MESSAGE: u8 = 19;

pub const REINITIALIZE_DEVICE: u8 = 20;

pub const VT_OPEN: u8 = 21;

pub const VT_CLOSE: u8 = 22;

pub const VT_DATA: u8 = 23;

pub const AUTHENTICATE: u8 = 24;

pub const REQUEST_KEY: u8 = 25;

pub const READ_RANGE: u8 = 26;

pub const LIFE_SAFETY_OPERATION: u8 = 27;

pub const SUBSCRIBE_COV_PROPERTY: u8 = 28;

pub const GET_EVENT_INFORMATION: u8 = 29;

pub const SUBSCRIBE_COV_PROPERTY_MULTIPLE: u8 = 30;

pub const COV_NOTIFICATION_MULTIPLE: u8 = 31;

pub const AUDIT_NOTIFICATION: u8 = 32;

pub const AUDIT_LOG_QUERY: u8 = 33;

// All choices, in the order of their numbers.
pub fn service_choices() -> [u8; 34]
    ensures { result ≡ service_choices }
{
    [
        ACKNOWLEDGE_ALARM,
        COV_NOTIFICATION,
        EVENT_NOTIFICATION,
        GET_ALARM_SUMMARY,
        GET_ENROLLMENT_SUMMARY,
        SUBSCRIBE_COV,
        ATOMIC_READ_FILE,
        ATOMIC_WRITE_FILE,
        ADD_LIST_ELEMENT,
        REMOVE_LIST_ELEMENT,
        CREATE_OBJECT,
        DELETE_OBJECT,
        READ_PROPERTY,
        READ_PROP_CONDITIONAL,
        READ_PROP_MULTIPLE,
        WRITE_PROPERTY,
        WRITE_PROP_MULTIPLE,
        DEVICE_COMMUNICATION_CONTROL,
        PRIVATE_TRANSFER,
        TEXT_MESSAGE,
        REINITIALIZE_DEVICE,
        VT_OPEN,
        VT_CLOSE,
        VT_DATA,
        AUTHENTICATE,
        REQUEST_KEY,
        READ_RANGE,
        LIFE_SAFETY_OPERATION,
        SUBSCRIBE_COV_PROPERTY,
        GET_EVENT_INFORMATION,
        SUBSCRIBE_COV_PROPERTY_MULTIPLE,
        COV_NOTIFICATION_MULTIPLE,
        AUDIT_NOTIFICATION,
        AUDIT_LOG_QUERY,
    ]
}

// A number that may stand where a service choice does: refused 11 where it is above the last.
pub fn allowed(choice: u8) -> Result<u8, Refusal>
    ensures { result ≡ if (ltb 33 choice) (Err (ServiceChoiceTooLarge choice)) (Ok choice) }
{
    if AUDIT_LOG_QUERY < choice {
        return Err(Refusal::ServiceChoiceTooLarge(choice));
    }
    Ok(choice)
}
