//! Messages of D-Bus implementations: libdbus (`dbus-daemon`, `dbus-send`), GDBus and sd-bus (`busctl`).
use crate::rows::told;
use std::test::Fail;
use test_tables::wrong_row;

/// Recorded messages: the call of Hello, its return, the signal NameAcquired, a list of names, an error, a call with an
/// empty signature, the properties of `dbus-daemon`, the signal of an added object, managed objects, a notification, an
/// introspection, a signal with a value of each type, and one with dictionaries.
const MESSAGES: &str = "\
l 1 0 1|1 o \"/org/freedesktop/DBus\"|2 s \"org.freedesktop.DBus\"|3 s \"Hello\"|6 s \"org.freedesktop.DBus\"|body| \
    => l%01~%01~~~~%01~~~m~~~%01%01o~%15~~~/org/freedesktop/DBus~~~%02%01s~%14~~~org.freedesktop.DBus~~~~%03%01s~%05~\
    ~~Hello~~~%06%01s~%14~~~org.freedesktop.DBus~~~~
l 2 1 1|6 s \":1.127\"|5 u 1|8 g \"s\"|7 s \"org.freedesktop.DBus\"|body \":1.127\"| => \
    l%02%01%01%0B~~~%01~~~=~~~%06%01s~%06~~~:1.127~~%05%01u~%01~~~%08%01g~%01s~~%07%01s~%14~~~org.freedesktop.DBus~~~\
    ~%06~~~:1.127~
l 4 1 2|1 o \"/org/freedesktop/DBus\"|2 s \"org.freedesktop.DBus\"|3 s \"NameAcquired\"|6 s \":1.127\"|8 g \"s\"|\
    7 s \"org.freedesktop.DBus\"|body \":1.127\"| => \
    l%04%01%01%0B~~~%02~~~%8D~~~%01%01o~%15~~~/org/freedesktop/DBus~~~%02%01s~%14~~~org.freedesktop.DBus~~~~%03%01s~\
    %0C~~~NameAcquired~~~~%06%01s~%06~~~:1.127~~%08%01g~%01s~~%07%01s~%14~~~org.freedesktop.DBus~~~~%06~~~:1.127~
l 2 1 19|6 s \":1.127\"|5 u 18|8 g \"as\"|7 s \"org.freedesktop.DBus\"|\
    body [\"org.freedesktop.DBus\" \":1.7\" \":1.8\" \"org.test.See\" \
    \"org.freedesktop.portal.Desktop\" \"org.test.Sub.One\" \":1.23\" \
    \":1.0\" \":1.1\" \":1.2\" \"org.test.Substitute\" \"org.test.Hidden\" \
    \":1.3\" \"org.test.CallOnly\" \":1.4\" \"org.test.Talk\" \":1.5\" \
    \":1.127\" \"org.test.Activated\" \":1.6\" \"org.test.Bcast\"]| => \
    l%02%01%01w%01~~%13~~~=~~~%06%01s~%06~~~:1.127~~%05%01u~%12~~~%08%01g~%02as~%07%01s~%14~~~org.freedesktop.DBus~~~\
    ~s%01~~%14~~~org.freedesktop.DBus~~~~%04~~~:1.7~~~~%04~~~:1.8~~~~%0C~~~org.test.See~~~~%1E~~~org.freedesktop.port\
    al.Desktop~~%10~~~org.test.Sub.One~~~~%05~~~:1.23~~~%04~~~:1.0~~~~%04~~~:1.1~~~~%04~~~:1.2~~~~%13~~~org.test.Subs\
    titute~%0F~~~org.test.Hidden~%04~~~:1.3~~~~%11~~~org.test.CallOnly~~~%04~~~:1.4~~~~%0D~~~org.test.Talk~~~%04~~~:1\
    .5~~~~%06~~~:1.127~~%12~~~org.test.Activated~~%04~~~:1.6~~~~%0E~~~org.test.Bcast~
l 3 1 16|6 s \":1.127\"|4 s \"org.freedesktop.DBus.Error.NameHasNoOwner\"|5 u 15|8 g \"s\"|\
    7 s \"org.freedesktop.DBus\"|body \"Could not get owner of name 'org.test.SeeAct': no such name\"| => \
    l%03%01%01@~~~%10~~~u~~~%06%01s~%06~~~:1.127~~%04%01s~)~~~org.freedesktop.DBus.Error.NameHasNoOwner~~~~~~~%05%01u\
    ~%0F~~~%08%01g~%01s~~%07%01s~%14~~~org.freedesktop.DBus~~~~;~~~Could \
    not get owner of name 'org.test.SeeAct': no such name~
l 1 0 3|1 o \"/org/freedesktop/DBus\"|2 s \"org.freedesktop.DBus.Debug.Stats\"|6 s \"org.freedesktop.DBus\"|8 g \"\"|\
    3 s \"GetStats\"|7 s \":1.3\"|body| => l%01~%01~~~~%03~~~%9D~~~%01%01o~%15~~~/org/freedesktop/DBus~~~%02%01s~ \
    ~~~org.freedesktop.DBus.Debug.Stats~~~~~~~~%06%01s~%14~~~org.freedesktop.DBus~~~~%08%01g~~~~~%03%01s~%08~~~GetSta\
    ts~~~~~~~~%07%01s~%04~~~:1.3~~~~
l 2 1 4|6 s \":1.1\"|5 u 3|8 g \"a{sv}\"|7 s \"org.freedesktop.DBus\"|\
    body [{\"Features\" <as [\"ActivatableServicesChanged\" \"HeaderFiltering\"]>} \
    {\"Interfaces\" <as [\"org.freedesktop.DBus.Monitoring\" \"org.freedesktop.DBus.Debug.Stats\"]>}]| => \
    l%02%01%01%B9~~~%04~~~E~~~%06%01s~%04~~~:1.1~~~~%05%01u~%03~~~%08%01g~%05a{sv}~~~~~~%07%01s~%14~~~org.freedesktop\
    .DBus~~~~%B1~~~~~~~%08~~~Features~%02as~~~~4~~~%1A~~~ActivatableServicesChanged~~%0F~~~HeaderFiltering~~~~~%0A~~~\
    Interfaces~%02as~~I~~~%1F~~~org.freedesktop.DBus.Monitoring~ ~~~org.freedesktop.DBus.Debug.Stats~
l 4 1 2|1 o \"/org/bluez\"|2 s \"org.freedesktop.DBus.ObjectManager\"|8 g \"oa{sa{sv}}\"|3 s \"InterfacesAdded\"|\
    7 s \":1.6\"|body \"/org/bluez/hci0/dev_00_11_22_33_44_55\" [{\"org.bluez.Device1\" \
    [{\"Address\" <s \"00:11:22:33:44:55\">} {\"Alias\" <s \"Lautsprecher \
    %E2%80%9CK%C3%BCche%E2%80%9D\">} {\"Class\" <u 2360324>} {\"Paired\" \
    <b true>} {\"RSSI\" <n -61>} {\"UUIDs\" <as [\"0000110b-0000-1000-8000-00805f9b34fb\" \
    \"0000110e-0000-1000-8000-00805f9b34fb\"]>} {\"ManufacturerData\" \
    <a{qv} [{76 <ay [2 21 255]>}]>}]} {\"org.freedesktop.DBus.Introspectable\" []}]| => \
    l%04%01%01%B8%01~~%02~~~}~~~%01%01o~%0A~~~/org/bluez~~~~~~%02%01s~\"~~~org.freedesktop.DBus.ObjectManager~~~~~~\
    %08%01g~%0Aoa{sa{sv}}~%03%01s~%0F~~~InterfacesAdded~%07%01s~%04~~~:1.6~~~~%25~~~/org/bluez/hci0/dev_00_11_22_33_4\
    4_55~~~%88%01~~%11~~~org.bluez.Device1~~~7%01~~~~~~%07~~~Address~%01s~~%11~~~00:11:22:33:44:55~~~%05~~~Alias~%01s\
    ~~~~%19~~~Lautsprecher %E2%80%9CK%C3%BCche%E2%80%9D~~~%05~~~Class~%01u~~~~%04%04$~~~~~%06~~~Paired~%01b~~~%01~~~~\
    ~~~%04~~~RSSI~%01n~%C3%FF~~%05~~~UUIDs~%02as~~~U~~~$~~~0000110b-0000-1000-8000-00805f9b34fb~~~~$~~~0000110e-0000-\
    1000-8000-00805f9b34fb~~~~~~~~%10~~~ManufacturerData~%05a{qv}~%0F~~~L~%02ay~~~%03~~~%02%15%FF~#~~~org.freedesktop\
    .DBus.Introspectable~~~~~~~~~
l 2 1 3|6 s \":1.2\"|8 g \"a{oa{sa{sv}}}\"|5 u 3|7 s \":1.1\"|body \
    [{\"/org/freedesktop/UDisks2/block_devices/sda1\" [{\"org.freedesktop.UDisks2.Block\" \
    [{\"Device\" <ay [47 100 101 118 47 115 100 97 49 0]>} {\"Size\" \
    <t 536870912>} {\"ReadOnly\" <b false>} {\"Configuration\" <a(sa{sv}) \
    [(\"fstab\" [{\"dir\" <ay [47 98 111 111 116 0]>} {\"freq\" <i \
    0>}])]>} {\"Drive\" <o \"/\">}]} {\"org.freedesktop.UDisks2.Filesystem\" \
    [{\"MountPoints\" <aay [[47 98 111 111 116 0]]>}]}]} {\"/org/freedesktop/UDisks2/jobs/1\" []}]| => \
    l%02%01%01%B0%01~~%03~~~=~~~%06%01s~%04~~~:1.2~~~~%08%01g~%0Da{oa{sa{sv}}}~~~~~~%05%01u~%03~~~%07%01s~%04~~~:1.1~\
    ~~~%A8%01~~~~~~+~~~/org/freedesktop/UDisks2/block_devices/sda1~F%01~~~~~~%1D~~~org.freedesktop.UDisks2.Block~~~\
    %C6~~~%06~~~Device~%02ay~~%0A~~~/dev/sda1~~~%04~~~Size~%01t~~~~~~~~ \
    ~~~~%08~~~ReadOnly~%01b~~~~~~~~~%0D~~~Configuration~%09a(sa{sv})~~~~8~~~~~~~%05~~~fstab~~~(~~~%03~~~dir~%02ay~%06\
    ~~~/boot~~~%04~~~freq~%01i~~~~~%05~~~Drive~%01o~~~~%01~~~/~~~\"~~~org.freedesktop.UDisks2.Filesystem~~&~~~~~~~%0B\
    ~~~MountPoints~%03aay~~~~%0A~~~%06~~~/boot~~~%1F~~~/org/freedesktop/UDisks2/jobs/1~~~~~
l 1 0 3|1 o \"/org/freedesktop/Notifications\"|2 s \"org.freedesktop.Notifications\"|\
    6 s \"org.freedesktop.Notifications\"|8 g \"susssasa{sv}i\"|3 s \"Notify\"|7 s \":1.8\"|\
    body \"app\" 0 \"mail-unread\" \"New mail\" \"From: <b>Anna</b>\\x0a\\\"Z%C3%BCrich\\\" \
    %F0%9F%9A%82\" [\"default\" \"Open\" \"mute\" \"Mute\"] [{\"urgency\" \
    <y 1>} {\"x\" <i -40>} {\"progress\" <d 0x000000000000d03f>} {\"image-data\" \
    <(iiibiiay) (2 1 6 false 8 3 [1 2 3])>} {\"size\" <x -9000000000>}] -1| => \
    l%01~%01$%01~~%03~~~%AD~~~%01%01o~%1E~~~/org/freedesktop/Notifications~~%02%01s~%1D~~~org.freedesktop.Notificatio\
    ns~~~%06%01s~%1D~~~org.freedesktop.Notifications~~~%08%01g~%0Dsusssasa{sv}i~~~~~~%03%01s~%06~~~Notify~~%07%01s~\
    %04~~~:1.8~~~~%03~~~app~~~~~%0B~~~mail-unread~%08~~~New mail~~~~ \
    ~~~From: <b>Anna</b>%0A\"Z%C3%BCrich\" %F0%9F%9A%82~~~~-~~~%07~~~default~%04~~~Open~~~~%04~~~mute~~~~%04~~~Mute~~\
    ~~%90~~~~~~~%07~~~urgency~%01y~%01%01~~~x~%01i~~~~%D8%FF%FF%FF%08~~~progress~%01d~~~~~~~%D0?%0A~~~image-data~%0A(\
    iiibiiay)~~~~~~%02~~~%01~~~%06~~~~~~~%08~~~%03~~~%03~~~%01%02%03~%04~~~size~%01x~~~~~~%E6%8E%E7%FD%FF%FF%FF%FF%FF\
    %FF%FF
l 2 1 4|6 s \":1.3\"|8 g \"s\"|5 u 2|7 s \":1.1\"|body \"<!DOCTYPE \
    node PUBLIC \\\"-//freedesktop//DTD D-BUS Object Introspection \
    1.0//EN\\\"\\x0a                      \\\"http://www.freedesktop.org/standards/dbus/1.0/introspect.dtd\\\">\\x0a<\
    !-- GDBus 2.74.6 -->\\x0a<node>\\x0a  <interface name=\\\"org.freedesktop.DBus.Properties\\\">\\x0a    \
    <method name=\\\"Get\\\">\\x0a      <arg type=\\\"s\\\" name=\\\"interface_name\\\" \
    direction=\\\"in\\\"/>\\x0a      <arg type=\\\"s\\\" name=\\\"property_name\\\" \
    direction=\\\"in\\\"/>\\x0a      <arg type=\\\"v\\\" name=\\\"value\\\" \
    direction=\\\"out\\\"/>\\x0a    </method>\\x0a    <method name=\\\"GetAll\\\">\\x0a      \
    <arg type=\\\"s\\\" name=\\\"interface_name\\\" direction=\\\"in\\\"/>\\x0a      \
    <arg type=\\\"a{sv}\\\" name=\\\"properties\\\" direction=\\\"out\\\"/>\\x0a    \
    </method>\\x0a    <method name=\\\"Set\\\">\\x0a      <arg type=\\\"s\\\" \
    name=\\\"interface_name\\\" direction=\\\"in\\\"/>\\x0a      <arg \
    type=\\\"s\\\" name=\\\"property_name\\\" direction=\\\"in\\\"/>\\x0a      \
    <arg type=\\\"v\\\" name=\\\"value\\\" direction=\\\"in\\\"/>\\x0a    \
    </method>\\x0a    <signal name=\\\"PropertiesChanged\\\">\\x0a      \
    <arg type=\\\"s\\\" name=\\\"interface_name\\\"/>\\x0a      <arg \
    type=\\\"a{sv}\\\" name=\\\"changed_properties\\\"/>\\x0a      \
    <arg type=\\\"as\\\" name=\\\"invalidated_properties\\\"/>\\x0a    \
    </signal>\\x0a  </interface>\\x0a  <interface name=\\\"org.freedesktop.DBus.Introspectable\\\">\\x0a    \
    <method name=\\\"Introspect\\\">\\x0a      <arg type=\\\"s\\\" \
    name=\\\"xml_data\\\" direction=\\\"out\\\"/>\\x0a    </method>\\x0a  \
    </interface>\\x0a  <interface name=\\\"org.freedesktop.DBus.Peer\\\">\\x0a    \
    <method name=\\\"Ping\\\"/>\\x0a    <method name=\\\"GetMachineId\\\">\\x0a      \
    <arg type=\\\"s\\\" name=\\\"machine_uuid\\\" direction=\\\"out\\\"/>\\x0a    \
    </method>\\x0a  </interface>\\x0a  <interface name=\\\"org.freedesktop.UDisks2.Block\\\">\\x0a    \
    <method name=\\\"Format\\\">\\x0a      <arg type=\\\"s\\\" name=\\\"type\\\" \
    direction=\\\"in\\\">\\x0a      </arg>\\x0a    </method>\\x0a    \
    <property type=\\\"t\\\" name=\\\"Size\\\" access=\\\"read\\\">\\x0a    \
    </property>\\x0a  </interface>\\x0a</node>\\x0a\"| => \
    l%02%01%01m%06~~%04~~~-~~~%06%01s~%04~~~:1.3~~~~%08%01g~%01s~~%05%01u~%02~~~%07%01s~%04~~~:1.1~~~~h%06~~<!DOCTYP\
    E node PUBLIC \"-//freedesktop//DTD D-BUS Object Introspection \
    1.0//EN\"%0A                      \"http://www.freedesktop.org/standards/dbus/1.0/introspect.dtd\">%0A<!-- \
    GDBus 2.74.6 -->%0A<node>%0A  <interface name=\"org.freedesktop.DBus.Properties\">%0A    \
    <method name=\"Get\">%0A      <arg type=\"s\" name=\"interface_name\" \
    direction=\"in\"/>%0A      <arg type=\"s\" name=\"property_name\" \
    direction=\"in\"/>%0A      <arg type=\"v\" name=\"value\" direction=\"out\"/>%0A    \
    </method>%0A    <method name=\"GetAll\">%0A      <arg type=\"s\" \
    name=\"interface_name\" direction=\"in\"/>%0A      <arg type=\"a{sv}\" \
    name=\"properties\" direction=\"out\"/>%0A    </method>%0A    <method \
    name=\"Set\">%0A      <arg type=\"s\" name=\"interface_name\" direction=\"in\"/>%0A      \
    <arg type=\"s\" name=\"property_name\" direction=\"in\"/>%0A      \
    <arg type=\"v\" name=\"value\" direction=\"in\"/>%0A    </method>%0A    \
    <signal name=\"PropertiesChanged\">%0A      <arg type=\"s\" name=\"interface_name\"/>%0A      \
    <arg type=\"a{sv}\" name=\"changed_properties\"/>%0A      <arg \
    type=\"as\" name=\"invalidated_properties\"/>%0A    </signal>%0A  \
    </interface>%0A  <interface name=\"org.freedesktop.DBus.Introspectable\">%0A    \
    <method name=\"Introspect\">%0A      <arg type=\"s\" name=\"xml_data\" \
    direction=\"out\"/>%0A    </method>%0A  </interface>%0A  <interface \
    name=\"org.freedesktop.DBus.Peer\">%0A    <method name=\"Ping\"/>%0A    \
    <method name=\"GetMachineId\">%0A      <arg type=\"s\" name=\"machine_uuid\" \
    direction=\"out\"/>%0A    </method>%0A  </interface>%0A  <interface \
    name=\"org.freedesktop.UDisks2.Block\">%0A    <method name=\"Format\">%0A      \
    <arg type=\"s\" name=\"type\" direction=\"in\">%0A      </arg>%0A    \
    </method>%0A    <property type=\"t\" name=\"Size\" access=\"read\">%0A    \
    </property>%0A  </interface>%0A</node>%0A~
l 4 1 2|1 o \"/org/test\"|2 s \"org.test.Types\"|3 s \"All\"|8 g \"ybnqiuxtdsogvayaa{sv}\"|7 s \":1.10\"|\
    body 255 true -32768 65535 -2147483648 4294967295 -9223372036854775808 \
    18446744073709551615 0x9a9999999999b9bf \"tab\\x09and \\\\ and \
    \\\"\" \"/a\" \"a{s(iv)}\" <v <s \"inner\">> [1 2 3] [[{\"k\" <i -5>}] []]| => \
    l%04%01%01%90~~~%02~~~n~~~%01%01o~%09~~~/org/test~~~~~~~%02%01s~%0E~~~org.test.Types~~%03%01s~%03~~~All~~~~~%08\
    %01g~%15ybnqiuxtdsogvayaa{sv}~~~~~~%07%01s~%05~~~:1.10~~~%FF~~~%01~~~~%80%FF%FF~~~%80%FF%FF%FF%FF~~~~~~~~~~~%80\
    %FF%FF%FF%FF%FF%FF%FF%FF%9A%99%99%99%99%99%B9%BF%0F~~~tab%09and \
    \\ and \"~%02~~~/a~%08a{s(iv)}~%01v~%01s~~%05~~~inner~~~%03~~~%01%02%03~%1C~~~%10~~~%01~~~k~%01i~~~~%FB%FF%FF%FF~\
    ~~~~~~~
l 4 1 2|1 o \"/org/test\"|2 s \"org.test.Sig\"|3 s \"Done\"|8 g \"isasa{si}v\"|7 s \":1.11\"|\
    body -7 \"line\\x0atwo\" [\"a\" \"b%7Cc\"] [{\"one\" 1} {\"two\" 2}] <d 0x000000000000f83f>| => \
    l%04%01%01X~~~%02~~~^~~~%01%01o~%09~~~/org/test~~~~~~~%02%01s~%0C~~~org.test.Sig~~~~%03%01s~%04~~~Done~~~~%08%01g\
    ~%0Aisasa{si}v~%07%01s~%05~~~:1.11~~~%F9%FF%FF%FF%08~~~line%0Atwo~~~~%10~~~%01~~~a~~~%03~~~b|\
    c~%1C~~~~~~~%03~~~one~%01~~~~~~~%03~~~two~%02~~~%01d~~~~~~~~%F8?
";

#[test]
fn recorded_messages_are_printed_and_read(rt: HostRuntime) -> Result<(), Fail> {
    assert_eq!(rt; wrong_row(rt.alloc(), MESSAGES, &told)?, None);
    Ok(())
}
