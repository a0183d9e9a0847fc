// The places at which a backplane has inputs and outputs.

#[derive(Clone, Copy)]
pub enum Input {
    // whether a drive is in the slot: 0 or 1
    Presence(usize),
    // the condition of a fan, of a supply: 0 to 4
    Fan(usize),
    Supply(usize),
    // the byte of a temperature sensor
    Temperature(usize),
    // the over-temperature flag of a sensor, and after the sensors of a thermostat: 0 or 1
    OverTemperature(usize),
}

#[derive(Clone, Copy)]
pub enum Output {
    // the lamp of a slot: 0 to 7
    Lamp(usize),
    // whether a slot is connected to the bus: 0 or 1
    Connection(usize),
    // the speed of a fan: 0 to 4
    Speed(usize),
    // whether a supply is on: 0 or 1
    Supply(usize),
    // whether the alarm sounds, the lock is set: 0 or 1
    Alarm,
    Lock,
}
